// The share arithmetic: how many whole units equal nodes can hold inside a window of ticks, on how few
// nodes, in how short a window, and with which shares. It knows nothing of jobs, shows, clocks or farms.
// What each function means is in specs/Model.antt; the other files of specs/ show what follows.
#![tactic(auto)]

ghost use Rattle.std.specs.Prelude.{◌≡◌, ◌+◌, ◌-◌, ◌^◌, ◌<◌, ◌≤◌, ◌&&◌, ◌==◌, nat_le};
ghost use Rattle.shares.specs.Model.{send_end, chunk_finish, first, answers, next_of, fewest_of, earliest, earliest_of, shares_of};
ghost use Rattle.shares.specs.Slack.{costs_of, Found};

// Ticks: to send a unit (document 01's m), to compute a unit (p), to set up a send on the link (ST), to
// set up a node (SC). The functions over them are no methods: other crates and the pages call them by their names.
#[derive(Clone, Copy)]
pub struct Costs {
    pub send: u64,
    pub compute: u64,
    pub linksetup: u64,
    pub nodesetup: u64,
}

// What the first node of a window holds, and what it leaves of the window to the remaining nodes.
#[derive(Clone, Copy)]
pub struct Share {
    pub units: u64,
    pub left: u64,
}

// A share list: its first `count` units, and 0 behind them. It is no ArrayVec of the kit's, since it can be copied.
#[derive(Clone, Copy)]
pub struct Shares {
    pub units: [u64; 64],
    pub count: usize,
}

// Whether the functions below answer for these costs and this many nodes: there is a send cost, so that no
// sum of shares can wrap, and the recursion over the nodes is not deep.
pub fn answerable(costs: Costs, nodes: usize) -> bool
    ensures { result ≡ answers costs nodes }
{
    1 <= costs.send && nodes <= 64
}

// When the send of some units has ended that begins at `from`.
pub fn send_end(costs: Costs, from: u64, units: u64) -> u64
    requires { send_end costs from units < 18446744073709551616 }
    ensures { result ≡ send_end costs from units }
{
    from + (costs.linksetup + units * costs.send)
}

// When its chunk has finished: computing follows the send.
pub fn chunk_finish(costs: Costs, from: u64, units: u64) -> u64
    requires { chunk_finish costs from units < 18446744073709551616 }
    ensures { result ≡ chunk_finish costs from units }
{
    send_end(costs, from, units) + (costs.nodesetup + units * costs.compute)
}

// The largest share that the first node of a window can hold; 0 where not even 1 unit fits. The tests come
// before the sum of the two costs, which then cannot wrap.
#[tactic(auto, using(crate::specs::Capacity::first_none), unfolding(crate::specs::Model::first))]
pub fn first_share(costs: Costs, window: u64) -> u64
    ensures { result ≡ first costs window }
{
    let spare = window
        .saturating_sub(costs.linksetup)
        .saturating_sub(costs.nodesetup);
    if spare < costs.send || spare - costs.send < costs.compute {
        return 0;
    }
    spare.checked_div(costs.send + costs.compute).unwrap_or(0)
}

// The first share with what it leaves, so that a caller can add a capacity up node by node.
#[tactic(auto, using(crate::proofs::Steps::next), unfolding(crate::specs::Model::next_of, crate::specs::Model::left))]
pub fn next_share(costs: Costs, window: u64) -> Share
    ensures { result ≡ next_of costs window }
{
    let units = first_share(costs, window);
    let left = window.saturating_sub(costs.linksetup + units * costs.send);
    Share { units, left }
}

// The fewest nodes, of at most `nodes`, that hold a size in a window, or that none do.
#[tactic(auto, using(crate::proofs::Steps::fewest), unfolding(crate::specs::Model::next_of))]
pub fn fewest_nodes(costs: Costs, nodes: usize, size: u64, window: u64) -> Option<usize>
    ensures { result ≡ fewest_of costs nodes size window }
{
    if !answerable(costs, nodes) {
        return None;
    }
    if size == 0 {
        return Some(0);
    }
    let mut rest = size;
    let mut left = window;
    for count in 0..nodes {
        let next = next_share(costs, left);
        if rest <= next.units {
            return Some(count + 1);
        }
        rest -= next.units;
        left = next.left;
    }
    None
}

// A window that was tried: what the nodes hold in it, how many ticks less change no share (`spare`), and how many
// ticks more change some share (`gap`).
#[derive(Clone, Copy)]
struct Tried {
    window: u64,
    units: u64,
    spare: u64,
    gap: u64,
}

impl Tried {
    // Whether the window tells the least one that holds a size: it holds the size exactly, and a share that is one unit
    // smaller leaves the rest too few ticks more (`send` less `spare` at most) for another of their shares to grow.
    fn settles(self, size: u64, send: u64) -> bool
        ensures { result ≡ (self.units == size && nat_le (send - self.spare) self.gap) }
    {
        self.units == size && send.saturating_sub(self.spare) <= self.gap
    }
}

// What `nodes` nodes hold in a window: the first its share, and the rest what it leaves, in the same way. If not even
// 1 fits, it holds 0 and so do the rest. It takes numbers and hands back one, so that the compiler makes it a loop,
// with one division a node; with the lent numbers first in `min` the loop keeps two values more, and is slower.
#[tactic(auto, using(crate::specs::Slack::found_next, crate::specs::Capacity::at_most_window))]
fn capacity(
    send: u64,
    compute: u64,
    link: u64,
    node: u64,
    nodes: usize,
    window: u64,
    spare: &mut u64,
    gap: &mut u64,
) -> u64
    requires { (1 ≤ send) × (nodes ≤ 64) × (send + compute < 2 ^ 64) }
    ensures { Found (costs_of send compute link node) nodes window spare.old gap.old result spare.new gap.new }
{
    if nodes == 0 {
        return 0;
    }
    let each = send + compute;
    let room = window.saturating_sub(link).saturating_sub(node);
    if room < each {
        *gap = (each - room).min(*gap);
        return 0;
    }
    let share = room / each;
    let over = room - share * each;
    *spare = over.min(*spare);
    *gap = (each - over).min(*gap);
    let left = window.saturating_sub(link + share * send);
    share + capacity(send, compute, link, node, nodes - 1, left, spare, gap)
}

// The window between two others that should hold `need` units more than the shorter one, in proportion.
fn in_proportion(short: Tried, long: Tried, need: u64) -> u64 {
    let span = long.window.saturating_sub(short.window);
    let more = long.units.saturating_sub(short.units);
    let longer = span.saturating_mul(need).checked_div(more).unwrap_or(0);
    short.window.wrapping_add(longer)
}

// A guess at the least window between one that is too short and one that is long enough. Where one of them is
// as good as right, it is the next at which a share changes.
fn guess(short: Tried, long: Tried, size: u64) -> u64 {
    if long.units == size {
        return long.window.saturating_sub(long.spare).saturating_sub(1);
    }
    let need = size.saturating_sub(short.units);
    if need == 1 {
        return short.window.wrapping_add(short.gap);
    }
    in_proportion(short, long, need)
}

// The next window to try, from `low` to below `high`. Each fourth is halfway, so that bad guesses do not matter.
fn next_window(low: u64, high: u64, turn: u64, guess: u64) -> u64
    requires { low < high }
    ensures { (low ≤ result) × (result < high) }
{
    if turn == 3 {
        return low + (high - low) / 2;
    }
    guess.clamp(low, high - 1)
}

// The least window, of at most the given one, in which one node holds a size: both setups and the units.
#[tactic(auto, using(crate::proofs::Steps::one))]
fn least_for_one(costs: Costs, size: u64, window: u64) -> u64
    requires { (1 ≤ costs.send) × (1 ≤ size) }
    ensures { result ≡ earliest costs 1 size window }
{
    if first_share(costs, window) < size {
        return window;
    }
    costs.linksetup + costs.nodesetup + size * (costs.send + costs.compute)
}

// What a least window is searched for: no sum of the search wraps, and its recursion is not deep.
#[derive(Clone, Copy)]
struct Search {
    costs: Costs,
    nodes: usize,
    ghost sends: { 1 ≤ costs.send },
    ghost fits: { costs.send + costs.compute < 2 ^ 64 },
    ghost few: { nodes ≤ 64 },
}

impl Search {
    // Tries a window.
    fn try_window(self, window: u64) -> Tried
        ensures { Found self.costs self.nodes window 18446744073709551615 (self.costs.send + self.costs.compute) result.units result.spare result.gap }
    {
        let mut spare = u64::MAX;
        let mut gap = self.costs.send + self.costs.compute;
        let units = capacity(
            self.costs.send,
            self.costs.compute,
            self.costs.linksetup,
            self.costs.nodesetup,
            self.nodes,
            window,
            &mut spare,
            &mut gap,
        );
        Tried {
            window,
            units,
            spare,
            gap,
        }
    }

    // Where the first guess starts from: a window for the setups alone, as if half the sends had to wait.
    fn setups(self) -> Tried {
        let once = self.costs.linksetup.wrapping_add(self.costs.nodesetup);
        let waits = self.costs.linksetup.saturating_mul(self.nodes as u64) / 2;
        Tried {
            window: once.wrapping_add(waits),
            units: 0,
            spare: 0,
            gap: self.costs.send + self.costs.compute,
        }
    }

    // The least window, of at most the given one, in which the nodes hold a size. Windows are tried by good guesses,
    // most often 2 or 3 of them.
    #[tactic(auto, using(crate::proofs::Steps::least))]
    fn least_window(self, size: u64, window: u64) -> u64
        requires { 1 ≤ size }
        ensures { result ≡ earliest self.costs self.nodes size window }
    {
        let mut long = self.try_window(window);
        if long.units < size {
            return window;
        }
        let mut short = self.setups();
        let mut low: u64 = 0;
        let mut high = window;
        let mut turn: u64 = 0;
        while low < high {
            let middle = next_window(low, high, turn, guess(short, long, size));
            let next = self.try_window(middle);
            turn = (turn + 1) % 4;
            if size <= next.units {
                if next.settles(size, self.costs.send) {
                    return middle - next.spare;
                }
                high = middle;
                long = next;
            } else {
                low = middle + 1;
                short = next;
            }
        }
        high
    }
}

// The earliest finish: the least window, of at most the given one, in which the nodes hold a size. Where the
// given window is too short it is the answer; so it is where a unit takes more ticks than any window has.
#[tactic(auto, using(crate::proofs::Steps::earliest))]
pub fn earliest_finish(costs: Costs, nodes: usize, size: u64, window: u64) -> u64
    ensures { result ≡ earliest_of costs nodes size window }
{
    if !answerable(costs, nodes) {
        return window;
    }
    if size == 0 {
        return 0;
    }
    if nodes == 1 {
        return least_for_one(costs, size, window);
    }
    if costs.send.checked_add(costs.compute).is_none() {
        return window;
    }
    Search { costs, nodes }.least_window(size, window)
}

// The shares with which the nodes hold what a window can hold: each node in turn the largest that fits.
#[tactic(auto, using(crate::proofs::Steps::greedy), unfolding(crate::specs::Model::next_of))]
pub fn greedy_shares(costs: Costs, nodes: usize, window: u64) -> Shares
    ensures { result ≡ shares_of costs nodes window }
{
    let mut units = [0u64; 64];
    if !answerable(costs, nodes) {
        return Shares { units, count: 0 };
    }
    let mut left = window;
    for count in 0..nodes {
        let share = next_share(costs, left);
        if share.units == 0 {
            return Shares { units, count };
        }
        units[count] = share.units;
        left = share.left;
    }
    Shares {
        units,
        count: nodes,
    }
}
