// The share rule (demand 3), of any resource that services share: its laws stand in specs/, the decisions on numbers are here. How much
// there is of a resource is a number handed in, and what a service may and does have are numbers of 32 bits, whatever the octets they stand in.
#![tactic(auto)]

ghost use Rattle.std.specs.Prelude.{◌≡◌, false, ℕ, ◌+◌, ◌-◌, ◌<◌, leb, length, get_or};
ghost use Rattle.laws.specs.If.{if_lt};
ghost use Rattle.paper.specs.Sizes.{services};
ghost use Rattle.paper.specs.Shares.{Resource, shared, gives, shares_fit};
ghost use Rattle.table_shares.specs.Telling.{Told, Remains, Parted};

use paper::SERVICES;

// A service's share.
#[derive(Clone, Copy)]
pub struct Share {
    pub guarantee: u32,
    pub limit: u32,
}

impl Share {
    // Whether the service, which has so many, is given one more. At or above its guarantee its own unused part is 0, so all services' is the
    // others'.
    pub fn gives_place(self, count: u32, unused: u32, free: u32) -> bool
        ensures { (R : Resource) (s : ℕ) → Told R s count self.guarantee self.limit unused free → result ≡ gives R s }
    {
        count < self.guarantee || count != self.limit && free != unused
    }

    // What of the guarantee isn't used.
    fn unused(self, count: u32) -> u32
        ensures { result ≡ self.guarantee - count }
    {
        self.guarantee.saturating_sub(count)
    }

    // How far the limit is passed, by the guarantee or by what the service has.
    fn passed(self, count: u32) -> u32
        ensures { result ≡ self.guarantee + (count - self.guarantee) - self.limit }
    {
        self.guarantee.max(count).saturating_sub(self.limit)
    }
}

// A service's share, where shares stand as octets, one a service.
// Stays: the shares of a fresh table come from C as slices (call_open::fresh), so arrays in place of slices would be made of them in calls.
pub fn share_at(guarantees: &[u8], limits: &[u8], k: usize) -> Share
    requires { (length guarantees.now ≡ services) × (length limits.now ≡ services) × (k < services) }
    ensures { (result.guarantee ≡ get_or guarantees.now k 0) × (result.limit ≡ get_or limits.now k 0) × (result.guarantee < 256) × (result.limit < 256) }
{
    Share {
        guarantee: u32::from(guarantees[k]),
        limit: u32::from(limits[k]),
    }
}

// No limit is passed, nor are the guarantees together above all there is, and what of them is unused is free.
#[tactic(auto, unfolding(laws::specs::If::if_lt))]
fn fair(over: u32, sum: u32, unused: u32, size: u32, free: u32) -> bool
    ensures { result ≡ if_lt 0 over false (if_lt size sum false (leb unused free)) }
{
    over == 0 && sum <= size && unused <= free
}

// "shares as for 13; nobody above the limit; free places at least the sum of unused guarantees", and that sum: of a resource of that size of
// which so much is free. What is over a limit, and of a limit over all there is, is added up too and judged at the end: a walk with no other
// exit is one in which the compiler takes several services at a time.
// Stays: guarantees and limits are two slices, as `shared` of paper takes them and C lends them; a range, since three lists are read at k: zipped twice, no plainer.
pub fn shares_kept(
    guarantees: &[u8],
    limits: &[u8],
    counts: [u8; SERVICES],
    size: u32,
    free: u32,
) -> Option<u32>
    requires { (length guarantees.now ≡ services) × (length limits.now ≡ services) × Remains (shared size services guarantees.now limits.now (λ k. get_or counts k 0)) free }
    ensures { Parted (shared size services guarantees.now limits.now (λ k. get_or counts k 0)) result }
{
    let mut sum: u32 = 0;
    let mut unused: u32 = 0;
    let mut over: u32 = 0;
    for k in 0..SERVICES {
        let share = share_at(guarantees, limits, k);
        // Stays: as `u32::from`, which was tried, it leaves the walk without the fact that a count is below 256, by which its sums fit.
        let count = laws::number(counts[k]);
        sum += share.guarantee;
        unused += share.unused(count);
        over += share.passed(count) + share.limit.saturating_sub(size);
    }
    if fair(over, sum, unused, size, free) {
        Some(unused)
    } else {
        None
    }
}

// Whether a fresh table takes these guarantees and limits (answer 13 where not): they are kept where nobody holds any.
pub fn shares_fit(guarantees: &[u8], limits: &[u8], size: u32) -> bool
    requires { (length guarantees.now ≡ services) × (length limits.now ≡ services) }
    ensures { result ≡ shares_fit (shared size services guarantees.now limits.now (λ k. 0)) }
{
    shares_kept(guarantees, limits, [0; SERVICES], size, size).is_some()
}
