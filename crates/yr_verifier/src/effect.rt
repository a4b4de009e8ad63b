//! What an instruction does to the stack of kinds and to the open blocks.

ghost use Rattle.std.specs.Prelude.{◌≡◌, [], ◌∷◌, if◌then◌else◌};
ghost use Rattle.yr_machine.specs.Roles.{Role, numbers, quantity, of_wants, two_of, plain, starts, kind_of_note, external_kind, field_kind, call_kind, role};
ghost use Rattle.yr_verifier.specs.Effects.{wants_of, role_of};
ghost use Rattle.yr_image.specs.Views.{image_of};
ghost use Rattle.yr_image.specs.ModuleTable.{field_row_of, call_row_of};

use crate::counting::count_externals;
use yr_base::Kind;
use yr_image::{ImageView, Instruction, OfForm, QuantifierKind, call_row, field_row};
use yr_machine::Want;

/// So many values of one want, above the number of a quantifier where there is one.
#[derive(Clone, Copy)]
pub struct Wants {
    pub want: Want,
    pub count: u64,
    pub numbered: bool,
}

/// What an instruction does.
#[derive(Clone, Copy)]
pub enum Effect {
    /// It ends the rule.
    Ends,
    /// It takes values and gives one.
    Gives(Wants, Kind),
    /// It takes a flag, and goes on or to its end.
    Skips(u32),
    /// It takes values and begins a loop.
    Starts {
        wants: Wants,
        keeps: bool,
        strings: bool,
        end: u32,
    },
    /// It ends a turn of the loop at a place.
    Turns(u32),
}

fn nothing() -> Wants
    ensures { wants_of result ≡ [] }
{
    Wants {
        want: Want::Any,
        count: 0,
        numbered: false,
    }
}

/// One value.
pub fn one(want: Want) -> Wants
    ensures { wants_of result ≡ want ∷ [] }
{
    Wants {
        want,
        count: 1,
        numbered: false,
    }
}

fn two_of(kind: Kind) -> Wants
    ensures { wants_of result ≡ two_of kind }
{
    Wants {
        want: Want::Of(kind),
        count: 2,
        numbered: false,
    }
}

fn numbers(count: u64) -> Wants
    ensures { wants_of result ≡ numbers count [] }
{
    Wants {
        want: Want::Of(Kind::Number),
        count,
        numbered: false,
    }
}

fn is_numbered(quantifier: QuantifierKind) -> bool
    ensures { quantity quantifier ≡ (if result then numbers 1 [] else []) }
{
    match quantifier {
        QuantifierKind::Number | QuantifierKind::Percent => true,
        QuantifierKind::All | QuantifierKind::Any | QuantifierKind::Nil => false,
    }
}

// Numbers above that of a quantifier.
fn quantified(count: u64, quantifier: QuantifierKind) -> Wants
    ensures { wants_of result ≡ numbers count (quantity quantifier) }
{
    Wants {
        want: Want::Of(Kind::Number),
        count,
        numbered: is_numbered(quantifier),
    }
}

fn of_wants(form: OfForm, quantifier: QuantifierKind) -> Wants
    ensures { wants_of result ≡ of_wants form (quantity quantifier) }
{
    let count = match form {
        OfForm::Match | OfForm::Rules => 0,
        OfForm::MatchAt => 1,
        OfForm::MatchIn => 2,
    };
    quantified(count, quantifier)
}

fn kind_of_note(kind: u32) -> Kind
    ensures { result ≡ kind_of_note kind }
{
    match kind {
        0 | 1 => Kind::Text,
        2 => Kind::Number,
        _ => Kind::Flag,
    }
}

fn external_kind(view: &ImageView, c: u32) -> Kind
    ensures { result ≡ external_kind (image_of view.now) c }
{
    if c < count_externals(view) {
        kind_of_note(view.external(c).kind)
    } else {
        Kind::Number
    }
}

/// Whether the field with an id takes an index, and its kind. The table has no id above 16 bits.
pub fn field(id: u32) -> Option<(bool, Kind)>
    ensures { result ≡ field_row_of id }
{
    if id < 0x1_0000 {
        field_row(id as u16)
    } else {
        None
    }
}

/// The kind of the call with an id.
pub fn call(id: u32) -> Option<Kind>
    ensures { result ≡ call_row_of id }
{
    if id < 0x1_0000 {
        call_row(id as u16)
    } else {
        None
    }
}

fn field_kind(id: u32) -> Kind
    ensures { result ≡ field_kind id }
{
    match field(id) {
        Some((_, kind)) => kind,
        None => Kind::Number,
    }
}

fn call_kind(id: u32) -> Kind
    ensures { result ≡ call_kind id }
{
    match call(id) {
        Some(kind) => kind,
        None => Kind::Number,
    }
}

fn field_wants(indexed: bool) -> Wants
    ensures { wants_of result ≡ (if indexed then numbers 1 [] else []) }
{
    if indexed { numbers(1) } else { nothing() }
}

fn starts(wants: Wants, keeps: bool, strings: bool, end: u32) -> Effect
    ensures { role_of result ≡ starts (wants_of wants) keeps strings end }
{
    Effect::Starts {
        wants,
        keeps,
        strings,
        end,
    }
}

/// What an instruction of an image does.
pub fn effect_of(view: &ImageView, instruction: Instruction) -> Effect
    ensures { role_of result ≡ role (image_of view.now) instruction }
{
    match instruction {
        Instruction::End => Effect::Ends,
        Instruction::Number(_) => Effect::Gives(nothing(), Kind::Number),
        Instruction::Text { .. } => Effect::Gives(nothing(), Kind::Text),
        Instruction::Flag(_) => Effect::Gives(nothing(), Kind::Flag),
        Instruction::FileSize => Effect::Gives(nothing(), Kind::Number),
        Instruction::External(c) => Effect::Gives(nothing(), external_kind(view, c)),
        Instruction::Rule(_) => Effect::Gives(nothing(), Kind::Flag),
        Instruction::Var(_) => Effect::Gives(nothing(), Kind::Number),
        Instruction::Field { indexed, id } => Effect::Gives(field_wants(indexed), field_kind(id)),
        Instruction::Call(id) => Effect::Gives(numbers(2), call_kind(id)),
        Instruction::Has(_) => Effect::Gives(nothing(), Kind::Flag),
        Instruction::HasAt(_) => Effect::Gives(numbers(1), Kind::Flag),
        Instruction::HasIn(_) => Effect::Gives(numbers(2), Kind::Flag),
        Instruction::Count(_) => Effect::Gives(nothing(), Kind::Number),
        Instruction::CountIn(_) => Effect::Gives(numbers(2), Kind::Number),
        Instruction::Offset(_) => Effect::Gives(numbers(1), Kind::Number),
        Instruction::Length(_) => Effect::Gives(numbers(1), Kind::Number),
        Instruction::Of {
            form,
            quantifier,
            ..
        } => Effect::Gives(of_wants(form, quantifier), Kind::Flag),
        Instruction::Read(_) => Effect::Gives(numbers(1), Kind::Number),
        Instruction::Negate => Effect::Gives(numbers(1), Kind::Number),
        Instruction::Flip => Effect::Gives(numbers(1), Kind::Number),
        Instruction::Arith(_) => Effect::Gives(numbers(2), Kind::Number),
        Instruction::Compare { kind, .. } => Effect::Gives(two_of(kind), Kind::Flag),
        Instruction::Test(_) => Effect::Gives(two_of(Kind::Text), Kind::Flag),
        Instruction::Matches(_) => Effect::Gives(one(Want::Of(Kind::Text)), Kind::Flag),
        Instruction::Not => Effect::Gives(one(Want::Any), Kind::Flag),
        Instruction::Defined => Effect::Gives(one(Want::Any), Kind::Flag),
        Instruction::Truth => Effect::Gives(one(Want::Any), Kind::Flag),
        Instruction::Settle => Effect::Gives(one(Want::Of(Kind::Flag)), Kind::Flag),
        Instruction::SkipFalse(end) => Effect::Skips(end),
        Instruction::SkipTrue(end) => Effect::Skips(end),
        Instruction::LoopRange { quantifier, end } => starts(
            quantified(2, quantifier),
            false,
            false,
            end,
        ),
        Instruction::LoopList {
            quantifier,
            end,
            items,
        } => starts(quantified(items, quantifier), true, false, end),
        Instruction::LoopStrings {
            quantifier,
            end,
            ..
        } => starts(quantified(0, quantifier), false, true, end),
        Instruction::LoopEnd(place) => Effect::Turns(place),
    }
}

impl Effect {
    ghost use Rattle.std.specs.Prelude.{◌≡◌};
    ghost use Rattle.yr_machine.specs.CodeWalk.{is_ending};
    ghost use Rattle.yr_verifier.specs.Effects.{role_of};

    /// Whether it ends the rule.
    pub fn ends(self) -> bool
        ensures { result ≡ is_ending (role_of self) }
    {
        match self {
            Effect::Ends => true,
            _ => false,
        }
    }
}
