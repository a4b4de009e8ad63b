//! Images that are being made.

use crate::filling::{add_edges, add_moves, add_nodes, add_outputs, add_sets, place};
use std::alloc::Global;
use std::marker::Model;
use yr_base::NoMemory;
use yr_image::{
    CodeRow, EdgeRow, NodeRow, NoteRow, ProgramRow, RuleRow, SplitRow, StringRow, Tables,
};
use yr_program::Program;

/// An image that is being made. Contracts see the image that its tables show so far. After a refusal they say nothing of it.
#[derive(Drop)]
pub struct ImageDraft {
    tables: Tables,
}

impl Model for ImageDraft {
    ghost use Rattle.yr_image.specs.Image.{Image, shown};

    ghost Value = { Image };

    ghost view = { λ draft. shown draft.tables };
}

impl ImageDraft {
    ghost use Rattle.std.specs.Prelude.{◌≡◌, ◌++◌, ◌∷◌, [], length, IfOk, OnOk};
    ghost use Rattle.yr_image.specs.Image.{shown};
    ghost use Rattle.yr_rows.specs.Nodes.{nodes_of, edges_of, outputs_of};
    ghost use Rattle.yr_program.specs.Programs.{program_moves, program_sets};
    ghost use Rattle.yr_draft.specs.Added.{empty_image, HasText, with_program};

    /// An image without a row.
    pub fn new(alloc: Global) -> ImageDraft
        ensures { result ≡ empty_image }
    {
        ImageDraft {
            tables: Tables {
                rules: Vec::new(alloc),
                notes: Vec::new(alloc),
                externals: Vec::new(alloc),
                strings: Vec::new(alloc),
                splits: Vec::new(alloc),
                sets: Vec::new(alloc),
                programs: Vec::new(alloc),
                moves: Vec::new(alloc),
                nodes: Vec::new(alloc),
                edges: Vec::new(alloc),
                outputs: Vec::new(alloc),
                lists: Vec::new(alloc),
                code: Vec::new(alloc),
                pool: Vec::new(alloc),
            },
        }
    }

    /// Its tables.
    pub fn finish(self) -> Tables
        ensures { shown result ≡ self }
    {
        self.tables
    }

    /// Puts a text into the pool, and tells its place.
    pub fn put_text(&mut self, text: &[u8]) -> Result<u32, NoMemory>
        ensures { IfOk result (λ place. HasText self.old self.new text.now place) }
    {
        let at = place(self.tables.pool.len())?;
        self.tables.pool.extend_from_slice(text)?;
        Ok(at)
    }

    /// Adds a program, and tells its number.
    pub fn put_program(&mut self, program: &Program) -> Result<u32, NoMemory>
        ensures program { OnOk result (self.new ≡ with_program self.old (program_moves program.now) (program_sets program.now)) }
        ensures number { IfOk result (λ number. number ≡ length self.old.programs) }
    {
        let number = place(self.tables.programs.len())?;
        let row = ProgramRow {
            first_move: place(self.tables.moves.len())?,
            moves: place(program.rows().len())?,
        };
        let sets = place(self.tables.sets.len())?;
        add_moves(&mut self.tables.moves, sets, &program.moves)?;
        add_sets(&mut self.tables.sets, &program.sets)?;
        self.tables.programs.push(row)?;
        Ok(number)
    }

    /// Adds list rows, and tells the first.
    pub fn put_members(&mut self, members: &[u32]) -> Result<u32, NoMemory>
        ensures members { OnOk result (self.new ≡ record self.old { lists = self.old.lists ++ members.now }) }
        ensures first { IfOk result (λ first. first ≡ length self.old.lists) }
    {
        let first = place(self.tables.lists.len())?;
        self.tables.lists.extend_from_slice(members)?;
        Ok(first)
    }

    /// Adds rows of code, and tells the first.
    pub fn put_code(&mut self, rows: &[CodeRow]) -> Result<u32, NoMemory>
        ensures rows { OnOk result (self.new ≡ record self.old { code = self.old.code ++ rows.now }) }
        ensures first { IfOk result (λ first. first ≡ length self.old.code) }
    {
        let first = place(self.tables.code.len())?;
        self.tables.code.extend_from_slice(rows)?;
        Ok(first)
    }

    /// Adds a rule.
    pub fn put_rule(&mut self, row: RuleRow) -> Result<(), NoMemory>
        ensures { OnOk result (self.new ≡ record self.old { rules = self.old.rules ++ row ∷ [] }) }
    {
        self.tables.rules.push(row)?;
        Ok(())
    }

    /// Adds a tag or an entry of meta.
    pub fn put_note(&mut self, row: NoteRow) -> Result<(), NoMemory>
        ensures { OnOk result (self.new ≡ record self.old { notes = self.old.notes ++ row ∷ [] }) }
    {
        self.tables.notes.push(row)?;
        Ok(())
    }

    /// Adds an external variable.
    pub fn put_external(&mut self, row: NoteRow) -> Result<(), NoMemory>
        ensures { OnOk result (self.new ≡ record self.old { externals = self.old.externals ++ row ∷ [] }) }
    {
        self.tables.externals.push(row)?;
        Ok(())
    }

    /// Adds a string.
    pub fn put_string(&mut self, row: StringRow) -> Result<(), NoMemory>
        ensures { OnOk result (self.new ≡ record self.old { strings = self.old.strings ++ row ∷ [] }) }
    {
        self.tables.strings.push(row)?;
        Ok(())
    }

    /// Adds a split.
    pub fn put_split(&mut self, row: SplitRow) -> Result<(), NoMemory>
        ensures { OnOk result (self.new ≡ record self.old { splits = self.old.splits ++ row ∷ [] }) }
    {
        self.tables.splits.push(row)?;
        Ok(())
    }

    /// Adds a node of the automaton.
    pub fn put_node(&mut self, row: NodeRow) -> Result<(), NoMemory>
        ensures { OnOk result (self.new ≡ record self.old { nodes = self.old.nodes ++ row ∷ [] }) }
    {
        self.tables.nodes.push(row)?;
        Ok(())
    }

    /// Adds an edge of the automaton.
    pub fn put_edge(&mut self, row: EdgeRow) -> Result<(), NoMemory>
        ensures { OnOk result (self.new ≡ record self.old { edges = self.old.edges ++ row ∷ [] }) }
    {
        self.tables.edges.push(row)?;
        Ok(())
    }

    /// Adds an output of the automaton.
    pub fn put_output(&mut self, split: u32) -> Result<(), NoMemory>
        ensures { OnOk result (self.new ≡ record self.old { outputs = self.old.outputs ++ split ∷ [] }) }
    {
        self.tables.outputs.push(split)?;
        Ok(())
    }

    /// Adds the nodes, edges and outputs that bytes hold.
    pub fn put_automaton(
        &mut self,
        nodes: &[u8],
        edges: &[u8],
        outputs: &[u8],
    ) -> Result<(), NoMemory>
        ensures { OnOk result (self.new ≡ record self.old {
          nodes = self.old.nodes ++ nodes_of nodes.now;
          edges = self.old.edges ++ edges_of edges.now;
          outputs = self.old.outputs ++ outputs_of outputs.now;
        }) }
    {
        add_nodes(&mut self.tables.nodes, nodes)?;
        add_edges(&mut self.tables.edges, edges)?;
        add_outputs(&mut self.tables.outputs, outputs)
    }
}
