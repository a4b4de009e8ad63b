//! Rows as bytes.

ghost use Rattle.std.specs.Prelude.{◌≡◌, ◌++◌, ◌∷◌, ◌<◌, ◌^◌, [], OnOk};
ghost use Rattle.std.specs.Int.{to_le_bytes, w32};
ghost use Rattle.yr_rows.specs.Nodes.{nodes_of, edges_of, outputs_of, AreWhole};

use yr_base::NoMemory;
use yr_rows::{EdgeRow, NodeRow};

// Adds a number, its lowest byte first.
fn put_number(bytes: &mut Vec<u8>, number: u32) -> Result<(), NoMemory>
    ensures added { OnOk result (bytes.new.items ≡ bytes.old.items ++ to_le_bytes w32 number) }
    ensures small { number < 2 ^ 32 }
{
    bytes.extend_from_slice(&number.to_le_bytes())?;
    Ok(())
}

/// Adds a node.
pub fn put_node(bytes: &mut Vec<u8>, row: &NodeRow) -> Result<(), NoMemory>
    requires { AreWhole 24 bytes.old.items }
    ensures row { OnOk result (nodes_of bytes.new.items ≡ nodes_of bytes.old.items ++ row.now ∷ []) }
    ensures whole { OnOk result (AreWhole 24 bytes.new.items) }
{
    put_number(bytes, row.first_edge)?;
    put_number(bytes, row.edges)?;
    put_number(bytes, row.failure)?;
    put_number(bytes, row.depth)?;
    put_number(bytes, row.first_output)?;
    put_number(bytes, row.outputs)?;
    Ok(())
}

/// Adds an edge.
pub fn put_edge(bytes: &mut Vec<u8>, row: &EdgeRow) -> Result<(), NoMemory>
    requires { AreWhole 8 bytes.old.items }
    ensures row { OnOk result (edges_of bytes.new.items ≡ edges_of bytes.old.items ++ row.now ∷ []) }
    ensures whole { OnOk result (AreWhole 8 bytes.new.items) }
{
    put_number(bytes, row.byte)?;
    put_number(bytes, row.target)?;
    Ok(())
}

/// Adds an output.
pub fn put_output(bytes: &mut Vec<u8>, output: u32) -> Result<(), NoMemory>
    requires { AreWhole 4 bytes.old.items }
    ensures row { OnOk result (outputs_of bytes.new.items ≡ outputs_of bytes.old.items ++ output ∷ []) }
    ensures whole { OnOk result (AreWhole 4 bytes.new.items) }
{
    put_number(bytes, output)?;
    Ok(())
}
