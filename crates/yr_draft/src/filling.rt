//! Rows that are added to sections.

ghost use Rattle.std.specs.Prelude.{◌≡◌, ◌++◌, ◌<◌, length, Some, slice_get, IfOk, OnOk};
ghost use Rattle.yr_rows.specs.Moves.{moves_in, sets_in};
ghost use Rattle.yr_rows.specs.Nodes.{nodes_of, edges_of, outputs_of};
ghost use Rattle.yr_draft.specs.Growing.{move_behind, moves_behind};

use yr_base::NoMemory;
use yr_rows::{EdgeRow, MoveRow, NodeRow, count_moves, count_sets, edge_at, node_at, output_at};

/// A place in four bytes. An image never has so many rows that its places need more.
pub fn place(n: usize) -> Result<u32, NoMemory>
    ensures { IfOk result (λ k. k ≡ n) }
{
    u32::try_from(n).map_err(|_| NoMemory)
}

// The row of a move whose program's sets stand behind so many others.
fn move_behind(sets: u32, row: MoveRow) -> Result<MoveRow, NoMemory>
    ensures { IfOk result (λ moved. moved ≡ move_behind sets row) }
{
    if row.kind != 1 {
        return Ok(row);
    }
    let set = row.set.checked_add(sets).ok_or(NoMemory)?;
    Ok(MoveRow { set, ..row })
}

/// Adds the moves of a program, whose sets stand behind so many others.
pub fn add_moves(into: &mut Vec<MoveRow>, sets: u32, moves: &[u8]) -> Result<(), NoMemory>
    ensures { OnOk result (into.new.items ≡ into.old.items ++ moves_behind sets (moves_in moves.now)) }
{
    for m in 0..count_moves(moves) {
        into.push(move_behind(sets, MoveRow::at(moves, place(m)?))?)?;
    }
    Ok(())
}

// A set by its place.
fn set_at(sets: &[u8], k: usize) -> [u8; 32]
    requires { k < length (sets_in sets.now) }
    ensures { slice_get (sets_in sets.now) k ≡ Some result }
{
    let at = 32 * k;
    let mut set = [0; 32];
    set.copy_from_slice(&sets[at..at + 32]);
    set
}

/// Adds the sets of a program.
pub fn add_sets(into: &mut Vec<[u8; 32]>, sets: &[u8]) -> Result<(), NoMemory>
    ensures { OnOk result (into.new.items ≡ into.old.items ++ sets_in sets.now) }
{
    for k in 0..count_sets(sets) {
        into.push(set_at(sets, k))?;
    }
    Ok(())
}

/// Adds the nodes that bytes hold.
pub fn add_nodes(into: &mut Vec<NodeRow>, bytes: &[u8]) -> Result<(), NoMemory>
    ensures { OnOk result (into.new.items ≡ into.old.items ++ nodes_of bytes.now) }
{
    for k in 0..bytes.len() / 24 {
        into.push(node_at(bytes, k))?;
    }
    Ok(())
}

/// Adds the edges that bytes hold.
pub fn add_edges(into: &mut Vec<EdgeRow>, bytes: &[u8]) -> Result<(), NoMemory>
    ensures { OnOk result (into.new.items ≡ into.old.items ++ edges_of bytes.now) }
{
    for k in 0..bytes.len() / 8 {
        into.push(edge_at(bytes, k))?;
    }
    Ok(())
}

/// Adds the outputs that bytes hold.
pub fn add_outputs(into: &mut Vec<u32>, bytes: &[u8]) -> Result<(), NoMemory>
    ensures { OnOk result (into.new.items ≡ into.old.items ++ outputs_of bytes.now) }
{
    for k in 0..bytes.len() / 4 {
        into.push(output_at(bytes, k))?;
    }
    Ok(())
}
