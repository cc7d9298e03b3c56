// Records without members: one cell, a named network, a cross. Each is read into the grid from a row and a column on.
#![tactic(auto)]

ghost use Rattle.std.specs.Prelude.{◌≡◌, ◌≤◌, length, drop};
ghost use Rattle.network.specs.Widths.{open_no};
ghost use Rattle.records.specs.Fields.{field};
ghost use Rattle.designs.specs.declared.Leaf.TheVariants.{Cross};
ghost use Rattle.designs.specs.Panels.{cell, named, cross};
ghost use Rattle.designs.specs.Records.{leaf_number};
ghost use Rattle.designs.specs.Leaves.{judged, cross_no, leaf_of};
ghost use Rattle.leaves.specs.Grid.{PutPanel};
ghost use Rattle.leaves.specs.Told.{judged_by, ReadInto};

pub mod grid;

use designs::{Fault, Leaf, Stretch, check_cross, judged};
use grid::{Corner, Grid, in_order};
use records::field_of_two;

#[derive(Clone, Copy)]
pub struct Size {
    pub width: usize,
    pub depth: usize,
}

// One cell: both rows in order.
fn put_cell(grid: &mut Grid, corner: Corner)
    requires { corner.row ≤ 4194240 }
    ensures { PutPanel cell corner.row corner.col grid.old grid.new }
{
    let wires = in_order();
    grid.put_places(corner, &wires[..2]);
    let exits = Corner {
        row: corner.row + 1,
        ..corner
    };
    grid.put_places(exits, &wires[..2]);
}

// The rows of a network's sheet, and its exits in order.
fn put_network(grid: &mut Grid, corner: Corner, width: u16, construction: u16)
    requires { (corner.row ≤ 4194240) × (open_no width construction ≡ 0) }
    ensures { PutPanel (named width construction) corner.row corner.col grid.old grid.new }
{
    let w = width as usize;
    let depth = network::depth_of(width, construction);
    for layer in 0..depth {
        let places = network::row(width, construction, layer);
        let below = Corner {
            row: corner.row + (layer as usize),
            ..corner
        };
        grid.put_places(below, &places[..w]);
    }
    let exits = Corner {
        row: corner.row + (depth as usize),
        ..corner
    };
    grid.put_places(exits, &in_order()[..w]);
}

fn named(inner: Stretch, grid: &mut Grid, corner: Corner) -> Result<Size, Fault>
    requires { corner.row ≤ 4194240 }
    ensures { let body = inner.entry.bytes.now in ReadInto (judged inner.entry.at (open_no (field 2 body 0) (field 2 body 2)) (named (field 2 body 0) (field 2 body 2))) corner.row corner.col grid.old grid.new (judged_by result) }
{
    let width = field_of_two(inner.bytes, 0);
    let construction = field_of_two(inner.bytes, 2);
    judged(inner.at, network::check_open(width, construction))?;
    put_network(grid, corner, width, construction);
    Ok(Size {
        width: width as usize,
        depth: network::depth_of(width, construction) as usize,
    })
}

fn cross(inner: Stretch, grid: &mut Grid, corner: Corner) -> Result<Size, Fault>
    requires { 1 ≤ length inner.bytes.now }
    ensures { let places = drop 1 inner.entry.bytes.now in ReadInto (judged inner.entry.at (cross_no places) (cross places)) corner.row corner.col grid.old grid.new (judged_by result) }
{
    let places = &inner.bytes[1..];
    judged(inner.at, check_cross(places))?;
    grid.put_places(corner, places);
    Ok(Size {
        width: places.len(),
        depth: 0,
    })
}

// A record without members, by the bytes behind its head.
#[tactic(auto, unfolding(designs::specs::Leaves::leaf_of))]
pub fn leaf(leaf: Leaf, inner: Stretch, grid: &mut Grid, corner: Corner) -> Result<Size, Fault>
    requires { (corner.row ≤ 4194240) × (leaf ≡ Cross → 1 ≤ length inner.bytes.now) }
    ensures { ReadInto (leaf_of inner.entry.at (leaf_number leaf) inner.entry.bytes.now) corner.row corner.col grid.old grid.new (judged_by result) }
{
    match leaf {
        Leaf::Cell => {
            put_cell(grid, corner);
            Ok(Size { width: 2, depth: 1 })
        }
        Leaf::Named => named(inner, grid, corner),
        Leaf::Cross => cross(inner, grid, corner),
    }
}
