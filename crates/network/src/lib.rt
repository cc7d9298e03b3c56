// The wiring of both builds: allowed widths and constructions, depth, the row of a layer, and the place of one wire by itself.
// Every public call answers every argument: a width that is not allowed has no layers, and a layer that is not there no row.
#![tactic(auto)]

ghost use Rattle.std.specs.Prelude.{◌≡◌, ℕ, ◌+◌, ◌-◌, ◌*◌, ◌^◌, ◌≤◌, ◌<◌, cond, eqb, get_or};
ghost use Rattle.order.specs.Order.{refused_by};
ghost use Rattle.network.specs.Widths.{width_ok, construction_ok, open_no, levels, depth, depth_b, depth_of};
ghost use Rattle.network.specs.Wiring.{fed_of, feed_at, last_at, part, bitonic, place};
ghost use Rattle.network.specs.Rows.{place_of, array_of, row_array};

use order::Refusal;

// ---- limits and numbers of the document

pub const MAX_WIDTH: u16 = 64;

pub const BITONIC: u16 = 1;

pub const PERIODIC: u16 = 2;

// The bytes that hold any row.
pub const ROW: usize = MAX_WIDTH as usize;

// A layer before two networks of half the width.
#[derive(Clone, Copy)]
pub enum Feed {
    Beside,
    Merger,
    Block,
}

// Which of the two a wire goes to, and to which of its wires.
#[derive(Clone, Copy)]
pub struct Fed {
    pub second: bool,
    pub wire: u16,
}

// A width with its levels: 2^levels wires.
#[derive(Clone, Copy)]
struct Width {
    levels: u16,
    wires: u16,
    ghost few: { levels ≤ 6 },
    ghost power: { wires ≡ 2 ^ levels },
}

// ---- widths and constructions

#[tactic(auto, unfolding(crate::specs::Widths::width_ok))]
pub fn width_ok(width: u16) -> bool
    ensures { result ≡ width_ok width }
{
    matches!(width, 1 | 2 | 4 | 8 | 16 | 32 | MAX_WIDTH)
}

#[tactic(auto, unfolding(crate::specs::Widths::construction_ok))]
pub fn construction_ok(construction: u16) -> bool
    ensures { result ≡ construction_ok construction }
{
    matches!(construction, BITONIC | PERIODIC)
}

// May a run open with this width and construction? Refused by 1 and 2.
#[tactic(auto, unfolding(crate::specs::Widths::open_no, order::specs::Order::first_of))]
pub fn check_open(width: u16, construction: u16) -> Result<(), Refusal>
    ensures { refused_by result ≡ open_no width construction }
{
    if !width_ok(width) {
        return Err(Refusal::Width);
    }
    if !construction_ok(construction) {
        return Err(Refusal::Construction);
    }
    Ok(())
}

// The k of a width w = 2^k, and 0 where the width is not allowed.
#[tactic(auto, unfolding(crate::specs::Widths::levels))]
fn levels_of(width: u16) -> u16
    ensures { result ≡ levels width }
{
    match width {
        2 => 1,
        4 => 2,
        8 => 3,
        16 => 4,
        32 => 5,
        64 => 6,
        _ => 0,
    }
}

fn bitonic_depth(k: u16) -> u16
    requires { k ≤ 6 }
    ensures { result ≡ depth_b k }
{
    k * (k + 1) / 2
}

#[tactic(auto, using(crate::proofs::Widths::levels_small, crate::proofs::Widths::depth_p_small), unfolding(crate::specs::Widths::depth_of))]
pub fn depth_of(width: u16, construction: u16) -> u16
    ensures { result ≡ depth_of width construction }
{
    let k = levels_of(width);
    if construction == BITONIC {
        return bitonic_depth(k);
    }
    k * k
}

impl Width {
    // Half the width.
    fn half(self) -> Width
        requires { 0 < self.levels }
        ensures levels { result.levels ≡ self.levels - 1 }
        ensures wires { 2 * result.wires ≡ self.wires }
        ensures low { result.wires ≤ 32 }
    {
        Width {
            levels: self.levels - 1,
            wires: self.wires / 2,
        }
    }
}

// ---- the row of a layer, by recursion on the width (document 01)

// Of a layer before two networks of width h, which of them takes wire v; a number that is no wire of theirs is answered too.
fn fed_by(feed: Feed, h: u16, v: u16) -> Fed
    ensures { result ≡ fed_of feed h v }
{
    match feed {
        Feed::Beside => {
            if v < h {
                Fed {
                    second: false,
                    wire: v,
                }
            } else {
                Fed {
                    second: true,
                    wire: v - h,
                }
            }
        }
        Feed::Merger => merged(h, v),
        Feed::Block => Fed {
            second: v % 2 != v / 2 % 2,
            wire: v / 2,
        },
    }
}

// The merger's feed: the upper half swaps the two.
fn merged(h: u16, v: u16) -> Fed
    ensures { result ≡ fed_of Feed.Merger h v }
{
    if v < h {
        return Fed {
            second: v % 2 == 1,
            wire: v / 2,
        };
    }
    let u = v - h;
    Fed {
        second: u % 2 == 0,
        wire: h / 2 + u / 2,
    }
}

// The place that a wire feeds, by that of half the width: past the first half's where the wire goes to the second.
fn past(h: u16, second: bool, x: u32) -> u32
    requires { x ≤ 200000 }
    ensures { result ≡ cond second (h + x) x }
{
    if second { u32::from(h) + x } else { x }
}

// The place that wire v feeds, by the row of half the width.
#[tactic(auto, using(crate::proofs::Feeds::fed_below), unfolding(crate::specs::Wiring::feed_at))]
fn fed_place(feed: Feed, h: u16, inner: &[u8; ROW], v: u16) -> u8
    requires { (h ≤ 32) × (v < 2 * h) × ((i : ℕ) → i < h → get_or inner.now i 0 < h) }
    ensures { result ≡ feed_at feed h (λ i. get_or inner.now i 0) v }
{
    let to = fed_by(feed, h, v);
    let x = inner[usize::from(to.wire)];
    past(h, to.second, u32::from(x)) as u8
}

// The bytes place(0), place(1), .., n of them, in front of an array of zeros.
fn filled<F: Fn(usize) -> u8>(n: usize, place: F) -> [u8; ROW]
    requires room { n ≤ 64 }
    requires ready { (v : ℕ) → v < n → F.pre place v }
    ensures front { (v : ℕ) → v < n → F.post place v (get_or result v 0) }
    ensures rest { (v : ℕ) → n ≤ v → get_or result v 0 ≡ 0 }
{
    let mut out = [0; ROW];
    for v in 0..n {
        out[v] = place(v);
    }
    out
}

// The row of such a layer.
fn feed_row(feed: Feed, h: u16, inner: [u8; ROW]) -> [u8; ROW]
    requires { (h ≤ 32) × ((i : ℕ) → i < h → get_or inner i 0 < h) }
    ensures { result ≡ array_of (feed_at feed h (λ i. get_or inner i 0)) (2 * h) }
{
    filled((2 * h) as usize, |v| fed_place(feed, h, &inner, v as u16))
}

// The place that wire v feeds in the last layer of a merger or a block of width 2h.
fn last_place(h: u16, v: u16) -> u32
    ensures { result ≡ last_at h v }
{
    if v < h {
        2 * u32::from(v)
    } else {
        2 * u32::from(v - h) + 1
    }
}

fn last_row(h: u16) -> [u8; ROW]
    requires { h ≤ 32 }
    ensures { result ≡ array_of (last_at h) (2 * h) }
{
    filled((2 * h) as usize, |v| last_place(h, v as u16) as u8)
}

// The feed of a layer: the part's own at its first layer, side by side after that.
fn feed_at(feed: Feed, layer: u16) -> Feed
    ensures { result ≡ cond (eqb layer 0) feed Feed.Beside }
{
    if layer == 0 { feed } else { Feed::Beside }
}

// The row of a layer of MERGER[w] or of BLOCK[w] by that of half the width.
fn part_row(feed: Feed, width: Width, layer: u16) -> [u8; ROW]
    requires { layer < width.levels }
    ensures { result ≡ array_of (part feed width.levels layer) width.wires }
{
    let half = width.half();
    if layer == half.levels {
        return last_row(half.wires);
    }
    let inner = part_row(feed, half, layer);
    feed_row(feed_at(feed, layer), half.wires, inner)
}

// The row of a layer of BITONIC[w] by that of half the width.
fn bitonic_row(width: Width, layer: u16) -> [u8; ROW]
    requires { layer < depth_b width.levels }
    ensures { result ≡ array_of (bitonic width.levels layer) width.wires }
{
    let half = width.half();
    let before = bitonic_depth(half.levels);
    if layer < before {
        let inner = bitonic_row(half, layer);
        return feed_row(Feed::Beside, half.wires, inner);
    }
    part_row(Feed::Merger, width, layer - before)
}

// The row of a layer of either construction.
#[tactic(auto, unfolding(crate::specs::Wiring::place, crate::specs::Wiring::periodic))]
fn built_row(construction: u16, width: Width, layer: u16) -> [u8; ROW]
    requires { layer < depth construction width.levels }
    ensures { result ≡ array_of (place construction width.levels layer) width.wires }
{
    if construction == BITONIC {
        return bitonic_row(width, layer);
    }
    part_row(Feed::Block, width, layer % width.levels)
}

// The row of a layer, zeros after it; zeros alone where there is no such layer.
pub fn row(width: u16, construction: u16, layer: u16) -> [u8; ROW]
    ensures { result ≡ row_array width construction layer }
{
    if layer < depth_of(width, construction) {
        let levels = levels_of(width);
        let width = Width {
            levels,
            wires: width,
        };
        return built_row(construction, width, layer);
    }
    [0; ROW]
}

// ---- the place of one wire by itself, as the definitions have it for any number; it fills no row

// The place of wire v in a layer of MERGER[w] or of BLOCK[w].
#[tactic(auto, using(crate::proofs::Parts::part_fits, crate::proofs::Parts::part_none, crate::proofs::Parts::part_some), unfolding(crate::specs::Wiring::feed_at))]
fn part_place(feed: Feed, width: Width, layer: u16, v: u16) -> u32
    ensures { result ≡ part feed width.levels layer v }
{
    if width.levels == 0 {
        return u32::from(v);
    }
    let half = width.half();
    if layer == half.levels {
        return last_place(half.wires, v);
    }
    let to = fed_by(feed_at(feed, layer), half.wires, v);
    let x = part_place(feed, half, layer, to.wire);
    past(half.wires, to.second, x)
}

// The place of wire v in a layer of BITONIC[w].
#[tactic(auto, using(crate::proofs::Parts::bitonic_fits, crate::proofs::Parts::bitonic_none, crate::proofs::Parts::bitonic_some), unfolding(crate::specs::Wiring::feed_at))]
fn bitonic_place(width: Width, layer: u16, v: u16) -> u32
    ensures { result ≡ bitonic width.levels layer v }
{
    if width.levels == 0 {
        return u32::from(v);
    }
    let half = width.half();
    let before = bitonic_depth(half.levels);
    if before <= layer {
        return part_place(Feed::Merger, width, layer - before, v);
    }
    let to = fed_by(Feed::Beside, half.wires, v);
    let x = bitonic_place(half, layer, to.wire);
    past(half.wires, to.second, x)
}

// The place of wire v in a layer of either construction.
#[tactic(auto, unfolding(crate::specs::Wiring::place, crate::specs::Wiring::periodic))]
fn built_place(construction: u16, width: Width, layer: u16, v: u16) -> u32
    requires { 0 < width.levels }
    ensures { result ≡ place construction width.levels layer v }
{
    if construction == BITONIC {
        return bitonic_place(width, layer, v);
    }
    part_place(Feed::Block, width, layer % width.levels, v)
}

// The place that a wire feeds in a layer. A width that is not allowed has no layers, and its wires go straight on.
#[tactic(auto, using(crate::proofs::Widths::levels_small, crate::proofs::Widths::levels_power, crate::proofs::Parts::part_none, crate::proofs::Parts::bitonic_none), unfolding(crate::specs::Rows::place_of, crate::specs::Wiring::place, crate::specs::Wiring::periodic))]
pub fn place_of(width: u16, construction: u16, layer: u16, wire: u16) -> u32
    ensures { result ≡ place_of width construction layer wire }
{
    let levels = levels_of(width);
    if levels == 0 {
        return u32::from(wire);
    }
    let width = Width {
        levels,
        wires: width,
    };
    built_place(construction, width, layer, wire)
}
