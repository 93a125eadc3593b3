//! Collects code.

ghost use Rattle.std.specs.Prelude.{◌≡◌, ◌≢◌, ◌+◌, ◌*◌, ◌<◌, ◌≤◌, ◌++◌, ◌∷◌, [], ◌↔◌, ◌&&◌, length, map, take, Some, nat_le, slice_get, All, IfOk, OnOk, OnErr, IsErrOf};
ghost use Rattle.std.specs.Bool.{OnTrue};
ghost use Rattle.insn_codec.specs.Spelling.{slot_count, spelling};
ghost use Rattle.insn_codec.specs.declared.insn.Insn.{Insn};
ghost use Rattle.insn_codec.specs.declared.insn.Insn.TheVariants.{Exit};
ghost use Rattle.cel_macros.specs.CoreTree.{plain_tree};
ghost use Rattle.cel_macros.specs.CoreView.{core_view};
ghost use Rattle.cel_measures.specs.Measures.{need, nodes};
ghost use Rattle.cel_types.specs.Declarations.{declaration};
ghost use Rattle.codegen.specs.Added.{code_at, with_addition, IsBehind};
ghost use Rattle.tree_code.specs.Constants.{joined as joined_texts};
ghost use Rattle.codegen.specs.Emitted.{no_code, with_piece, with_insn_at, with_nodes, slot_spellings, IsTooLong, HasTooManyTexts};
ghost use Rattle.tree_code.specs.HasLiterals.{HasLiterals};
ghost use Rattle.expression_code.specs.Pieces.{slots, insn_slots, size};
ghost use Rattle.expression_code.specs.Limits.{slot_reach, word_limit, node_limit, memo_limit, part_slots_per_node, code_limit};

use crate::code_error::CodeError;
use cel_macros::Core;
use cel_measures::nodes;
use cel_types::Variable;
use expression_code::limits::NODE_LIMIT;
use indexmap::IndexSet;
use insn_codec::{Insn, encode};
use loader::CONSTANTS_LIMIT;
use std::alloc::{AllocError, Global};
use std::marker::Model;
use tree_code::constants::{byte_count, joined, take_texts};
use tree_code::{Code, NameTable, passed_routine, whole_code};

/// The largest number of slots after which the code of an expression is added. With it, a call
/// reaches every routine by an offset of 32 bits. An image has fewer slots.
const CODE_LIMIT: usize = 0x7fff_0000;

/// How an expression is added.
#[derive(Clone, Copy)]
pub(crate) enum Addition {
    /// As itself: its code is appended.
    Expression,
    /// As the next variable: its code becomes a routine, with a jump over it.
    Variable,
}

/// Collects code: its instructions, the texts that they use, and the number of nodes that they come
/// from.
#[derive(Drop)]
pub struct Emitter {
    /// The instruction that begins at each slot.
    code: Vec<Option<Insn>>,
    /// The texts, in order of first use.
    constants: IndexSet<String>,
    nodes: u64,
    /// The slots of the variables' routines, in order of the variables.
    routines: Vec<u32>,
    /// Whether code was left out because there was no room for it. Then `finish` refuses the rest.
    lacks_code: bool,
}

impl Model for Emitter {
    ghost use Rattle.std.specs.Prelude.{◌≤◌, ◌*◌, length, map, string_bytes, All};
    ghost use Rattle.codegen.specs.Emitted.{Emitted};
    ghost use Rattle.expression_code.specs.Limits.{slot_reach};

    ghost Value = { Emitted };

    ghost view = { λ e. record { code = e.code.items; constants = map string_bytes e.constants.keys; nodes = e.nodes; routines = e.routines.items; lacks_code = e.lacks_code } };

    ghost invariant = { λ e. All (λ slot. slot ≤ slot_reach) e.routines.items × (2 * length e.routines.items ≤ e.nodes) };
}

impl Emitter {
    /// An empty emitter. Nothing is allocated.
    pub fn new(alloc: Global) -> Emitter
        ensures { result ≡ no_code }
    {
        Emitter {
            code: Vec::new(alloc),
            constants: IndexSet::new(alloc),
            nodes: 0,
            routines: Vec::new(alloc),
            lacks_code: false,
        }
    }

    /// Appends the instruction and returns its slot.
    pub fn put(&mut self, insn: &Insn) -> Result<u64, AllocError>
        ensures ok { IfOk result (λ slot. slot ≡ length self.old.code) }
        ensures code { OnOk result (self.new ≡ with_piece self.old (insn.now ∷ [])) }
        ensures err { OnErr result (self.new ≡ self.old) }
    {
        let slot = self.code.len() as u64;
        if insn.slots() == 2 {
            self.extend(&[Some(*insn), None])?;
        } else {
            self.extend(&[Some(*insn)])?;
        }
        Ok(slot)
    }

    /// Replaces the instruction at the slot. Nothing is allocated.
    pub fn patch(&mut self, slot: u64, insn: &Insn)
        requires { (i : Insn) × (slice_get self.old.code slot ≡ Some (Some i)) × (slot_count i ≡ slot_count insn.now) }
        ensures { self.new ≡ with_insn_at self.old slot insn.now }
    {
        self.code[slot as usize] = Some(*insn);
    }

    /// Adds `n` nodes. Nothing is allocated.
    pub fn count(&mut self, n: u64)
        ensures { self.new ≡ with_nodes self.old n }
    {
        self.nodes = self.nodes.saturating_add(n);
    }

    /// Adds the texts, the nodes and the code of an expression, or leaves out the code if there is no
    /// room. Its literals are values.
    pub(crate) fn add(
        &mut self,
        alloc: Global,
        addition: Addition,
        core: &Core,
        scope: &[Variable],
    ) -> Result<(), AllocError>
        requires { need (core_view core.now) ≤ word_limit }
        ensures few { 2 * length self.old.routines ≤ self.old.nodes }
        ensures low { All (λ slot. slot ≤ slot_reach) self.old.routines }
        ensures ok { OnOk result (self.new ≡ with_addition addition self.old (map declaration scope.now) (core_view core.now)) }
        ensures literals { OnOk result (HasLiterals (plain_tree (core_view core.now))) }
        ensures err { OnErr result (self.new ≡ self.old) }
    {
        let (texts, routines, nodes) = (self.constants.len(), self.routines.len(), self.nodes);
        let added = self.grow(alloc, addition, core, scope);
        if added.is_err() {
            self.cut(texts, routines, nodes);
        }
        added
    }

    /// Adds an expression. After an error, the new texts, nodes and routine slot may remain.
    #[tactic(auto, using(crate::proofs::Behind::texts_front, crate::proofs::Behind::kept, crate::proofs::Behind::longer))]
    fn grow(
        &mut self,
        alloc: Global,
        addition: Addition,
        core: &Core,
        scope: &[Variable],
    ) -> Result<(), AllocError>
        requires { need (core_view core.now) ≤ word_limit }
        ensures ok { OnOk result (self.new ≡ with_addition addition self.old (map declaration scope.now) (core_view core.now)) }
        ensures literals { OnOk result (HasLiterals (plain_tree (core_view core.now))) }
        ensures err { OnErr result (IsBehind self.old self.new) }
    {
        take_texts(alloc, &mut self.constants, core)?;
        self.nodes = self.nodes.saturating_add(nodes(core));
        match addition {
            Addition::Expression => {
                if has_room(self.nodes, self.code.len()) {
                    let piece = self.code_at(alloc, core, scope, self.code.len())?;
                    self.append(alloc, &piece)?;
                } else {
                    self.lacks_code = true;
                }
            }
            Addition::Variable => {
                self.nodes = self.nodes.saturating_add(1);
                if has_room(self.nodes, self.code.len()) {
                    let slot = self.code.len() + 1;
                    let body = self.code_at(alloc, core, scope, slot)?;
                    let routine = passed_routine(alloc, &body, self.routines.len())?;
                    self.routines.push(slot as u32)?;
                    self.append(alloc, &routine)?;
                } else {
                    self.lacks_code = true;
                }
            }
        }
        Ok(())
    }

    /// The expression's code at this slot.
    fn code_at(&self, alloc: Global, core: &Core, scope: &[Variable], slot: usize) -> Code
        requires need { need (core_view core.now) ≤ word_limit }
        requires nodes { nodes (core_view core.now) ≤ node_limit }
        requires slot { slot ≤ 0x7fff_0001 }
        requires routines { length self.now.routines ≤ memo_limit }
        ensures code { IfOk result (λ code. code.items ≡ code_at self.now (map declaration scope.now) (core_view core.now) slot) }
        ensures short { IfOk result (λ code. size code.items + 4 ≤ part_slots_per_node * nodes (core_view core.now)) }
    {
        let around = NameTable {
            texts: self.constants.as_slice(),
            variables: scope,
            routines: self.routines.as_slice(),
        };
        whole_code(alloc, core, &around, slot)
    }

    /// Appends the piece.
    fn append(&mut self, alloc: Global, piece: &[Insn]) -> Result<(), AllocError>
        ensures ok { OnOk result (self.new ≡ with_piece self.old piece.now) }
        ensures err { OnErr result (self.new ≡ self.old) }
    {
        let begins = slots_of(alloc, piece)?;
        self.extend(&begins)
    }

    /// Appends these slots.
    fn extend(&mut self, slots: &[Option<Insn>]) -> Result<(), AllocError>
        ensures ok { OnOk result (self.new ≡ record self.old { code = self.old.code ++ slots.now }) }
        ensures err { OnErr result (self.new ≡ self.old) }
    {
        self.code.extend_from_slice(slots)
    }

    /// Goes back to these numbers of texts, routines and nodes.
    #[tactic(auto, using(crate::proofs::Behind::texts_cut))]
    fn cut(&mut self, texts: usize, routines: usize, nodes: u64)
        requires { 2 * routines ≤ nodes }
        ensures { self.new ≡ record self.old { constants = take texts self.old.constants; nodes = nodes; routines = take routines self.old.routines } }
    {
        self.constants.truncate(texts);
        self.routines.truncate(routines);
        self.nodes = nodes;
    }

    /// The code, ended by an exit, and its constants, as bytes. `TooManyNodes` if there are too
    /// many nodes or code was left out, else `TooManyTextBytes` if the texts have too many bytes.
    pub fn finish(self) -> Result<(Vec<u8>, Vec<u8>), CodeError>
        ensures code { IfOk result (λ r. r.0.items ≡ slot_spellings self.code ++ spelling Exit) }
        ensures constants { IfOk result (λ r. r.1.items ≡ joined_texts self.constants) }
        ensures g3 { IsErrOf result CodeError.TooManyNodes ↔ IsTooLong self }
        ensures g4 { IsErrOf result CodeError.TooManyTextBytes ↔ ((IsTooLong self → ⊥) × HasTooManyTexts self) }
        ensures g1 { result ≢ Err CodeError.NeedsTooManyWords }
        ensures g2 { result ≢ Err CodeError.VariableTooDeep }
    {
        let texts = self.constants.as_slice();
        if self.nodes > NODE_LIMIT || self.lacks_code {
            return Err(CodeError::TooManyNodes);
        }
        if byte_count(texts) > CONSTANTS_LIMIT {
            return Err(CodeError::TooManyTextBytes);
        }
        let alloc = *self.code.allocator();
        let mut code = spelled(alloc, &self.code)?;
        push_spelling(&mut code, &Insn::Exit)?;
        let constants = joined(alloc, texts)?;
        Ok((code, constants))
    }
}

/// Whether an image has room for code of this number of nodes, after this number of slots.
fn has_room(nodes: u64, slots: usize) -> bool
    ensures room { result ≡ (nat_le nodes node_limit && nat_le slots code_limit) }
    ensures few { OnTrue result ((nodes ≤ node_limit) × (slots ≤ code_limit)) }
{
    nodes <= NODE_LIMIT && slots <= CODE_LIMIT
}

/// What begins at each slot of the piece.
fn slots_of(alloc: Global, piece: &[Insn]) -> Result<Vec<Option<Insn>>, AllocError>
    ensures { IfOk result (λ begins. begins.items ≡ slots piece.now) }
{
    let mut begins = Vec::new(alloc);
    for insn in piece {
        begins.push(Some(*insn))?;
        if insn.slots() == 2 {
            begins.push(None)?;
        }
    }
    Ok(begins)
}

/// The bytes of the instructions at these slots.
fn spelled(alloc: Global, slots: &[Option<Insn>]) -> Result<Vec<u8>, AllocError>
    ensures { IfOk result (λ bytes. bytes.items ≡ slot_spellings slots.now) }
{
    let mut bytes = Vec::new(alloc);
    for begins in slots {
        if let Some(insn) = begins {
            push_spelling(&mut bytes, insn)?;
        }
    }
    Ok(bytes)
}

/// Appends the instruction's bytes.
fn push_spelling(bytes: &mut Vec<u8>, insn: &Insn) -> Result<(), AllocError>
    ensures { OnOk result (bytes.new.items ≡ bytes.old.items ++ spelling insn.now) }
{
    let (first, second) = encode(insn);
    bytes.extend_from_slice(&first.to_le_bytes())?;
    if let Some(second) = second {
        bytes.extend_from_slice(&second.to_le_bytes())?;
    }
    Ok(())
}
