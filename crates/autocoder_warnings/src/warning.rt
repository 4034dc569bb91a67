//! What a source without a fault says and hardly means.
ghost use Rattle.std.specs.Prelude.{◌≡◌, ◌+◌, ◌<◌, ◌^◌, ◌++◌, [], length, replicate, take, All, Contains, IfOk, IfErr};
ghost use Rattle.std.specs.Prelude.{OnOk, drop, ℕ};
ghost use Rattle.std.specs.List.{filter};
ghost use Rattle.machine_tables.specs.Operation.{longest_at};
ghost use Rattle.machine_tables.specs.Features.{no_features};
ghost use Rattle.machine_tables.specs.declared.features.Features.{Features};
ghost use Rattle.autocoder_statements.specs.LoneAddress.{is_unit};
ghost use Rattle.autocoder_statements.specs.SourceLine.{lines_of};
ghost use Rattle.autocoder_statements.specs.Statement.{well_formed};
ghost use Rattle.autocoder_symbols.specs.Chains.{chains_of};
ghost use Rattle.autocoder_symbols.specs.Fault.{IsMemory};
ghost use Rattle.autocoder_symbols.specs.Reading.{lines_in};
ghost use Rattle.autocoder_symbols.specs.Symbols.{sites_of};
ghost use Rattle.autocoder_symbols.specs.View.{chains_view};
ghost use Rattle.autocoder_diagnostics.specs.Noted.{known_of};
ghost use Rattle.autocoder_placing.specs.Cells.{address_or_zero};
ghost use Rattle.autocoder_placing.specs.Filling.{addresses_from, filled, filled_by, filled_from};
ghost use Rattle.autocoder_placing.specs.Placement.{instruction_length, placed, placed_after, unplaced};
ghost use Rattle.autocoder_placing.specs.View.{places_of};
ghost use Rattle.autocoder_warnings.specs.Warnings.{is_tape, is_unfitted, is_unfitted_chain, is_not_fitted, is_unused};
ghost use Rattle.autocoder_warnings.specs.Warnings.{takes_tape};
ghost use Rattle.autocoder_warnings.specs.Warnings.{tests_comparison, is_unset, branches_unset, is_signed_literal};
ghost use Rattle.autocoder_warnings.specs.Warnings.{lone_symbol, stays_unsigned, are_unlike, compares_unlike};
ghost use Rattle.autocoder_warnings.specs.Warnings.{fifth_before};
ghost use Rattle.autocoder_warnings.specs.Warnings.{cut_warned, ends, open_place, chain_read_on, read_on, warned_if, warned_of};
ghost use Rattle.autocoder_warnings.specs.Warnings.{card_lost, facts_of, line_warnings, warnings_from, all_warnings};
ghost use Rattle.autocoder_warnings.specs.Warnings.{is_condition, is_of_areas, is_idle, is_one_of, never_branches};
ghost use Rattle.autocoder_warnings.specs.Warnings.{may_begin, names_phase, starts_nothing};
ghost use Rattle.autocoder_warnings.specs.Warnings.{has_whole_text, holds_at_sign, loss_left};
ghost use Rattle.autocoder_warnings.specs.Warnings.{overlap_warned, loss_warned, own_warnings, place_warnings};
ghost use Rattle.autocoder_warnings.specs.FittedNotes.{known_with};
ghost use Rattle.autocoder_warnings.specs.Loss.{loss_of, losses_of};
ghost use Rattle.autocoder_warnings.specs.Overlap.{first_overlap, overlaps_from, with_filler};
ghost use Rattle.autocoder_warnings.specs.Warnings.{PlainIsCarriedOut, is_lost};
ghost use Rattle.autocoder_warnings.specs.Lost.{lost_from, lost_with};

use crate::fitted_notes::notes_with;
use crate::loss::{Loss, has_at_sign, loss_of};
use crate::overlap::{Overlap, put_places};
use autocoder_diagnostics::Notes;
use autocoder_placing::{FilledPlaces, Placing, chain_length, fill, instruction_length, place_all};
use autocoder_statements::{
    Addressing, AreaRole, Base, Chain, Constant, Contents, Instruction, Label, LabelField,
    Language, Line, Literal, Operand, OperandField, Operands, Statement, split_line,
};
use autocoder_symbols::{AsmFault, Chains, Lines, SourceHashing, declared, read_lines};
use bcd_1401::{Cell, Char};
use machine_tables::{Features, fitted_in, is_fitted_with, longest_at, tape_unit_named};
use std::alloc::Global;

/// What a line says and hardly means.
#[derive(Clone, Copy, Debug)]
pub enum WarningKind {
    /// The machine never carries out the instruction: its operation or its unit belongs to a feature that it hasn't
    /// got, or the operation has no instructions of this length.
    NotFitted,
    /// No operand names the label, which isn't that of a field of areas: such a field may only describe a record.
    UnusedLabel,
    /// A branch tests the last comparison or an overflow, and no instruction sets the indicator. C sets that of a
    /// comparison; A and S set that of an overflow, and so does a division where it is fitted, but ZA and ZS don't.
    UnsetIndicator,
    /// A literal with a sign is compared with a number that has none. The sign is a zone over the units, so they are
    /// never equal.
    UnlikeSigns,
    /// A branch has a d-character with which it never branches.
    NeverBranches,
    /// An EX or XFR names a place at which nothing is started: all is loaded before the program runs.
    StartsNothing,
    /// No word mark follows an instruction, which is read on at this place.
    ReadOn(u32),
    /// An earlier line fills a place of the line already.
    Overlaps(Overlap),
    /// Something of the line isn't read.
    Loses(Loss),
}

/// A warning.
#[derive(Clone, Copy, Debug)]
pub struct Warning {
    /// The number of the line, counted from 1.
    pub line: u64,
    /// What it is about.
    pub kind: WarningKind,
}

/// Whether an operand is an input-output unit.
fn is_unit(field: OperandField) -> bool
    ensures { result ≡ is_unit field }
{
    matches!(field, OperandField::Operand(Operand::Unit(_)))
}

/// Whether an operand names a tape unit.
fn is_tape(field: OperandField) -> bool
    ensures { result ≡ is_tape field }
{
    match field {
        OperandField::Operand(Operand::Unit(unit)) => {
            let [first, second, third] = unit.graphics;
            tape_unit_named(first, second, third).is_some()
        },
        OperandField::Operand(Operand::Address(_) | Operand::Literal(_))
        | OperandField::Absent
        | OperandField::Malformed => false,
    }
}

/// Whether an instruction is one for the tape unit that it names, on a machine with these features.
fn takes_tape(features: Features, instruction: Instruction, operands: Operands) -> bool
    ensures { result ≡ takes_tape features instruction operands }
{
    if !is_tape(operands.a) {
        return false;
    }
    match fitted_in(
        features,
        instruction.operation,
        instruction_length(operands),
    ) {
        Some(fitted) => fitted.is_for_tape(),
        None => false,
    }
}

/// Whether a machine with these features never carries out an instruction.
fn is_unfitted(features: Features, instruction: Instruction, operands: Operands) -> bool
    ensures { result ≡ is_unfitted features instruction operands }
{
    (is_unit(operands.a) && !takes_tape(features, instruction, operands))
        || is_unit(operands.b)
        || !is_fitted_with(
            features,
            instruction.operation,
            instruction_length(operands),
        )
}

/// Whether it never carries out the instructions of a chain.
fn is_unfitted_chain(features: Features, chain: Chain) -> bool
    ensures { result ≡ is_unfitted_chain features chain }
{
    match chain.operation {
        Some(operation) => !is_fitted_with(features, operation, 1),
        None => false,
    }
}

/// Whether a statement is an instruction, or a chain of such, that it never carries out.
fn is_not_fitted(features: Features, contents: Contents) -> bool
    ensures { result ≡ is_not_fitted features contents }
{
    match contents {
        Contents::Instruction(instruction, operands) => {
            is_unfitted(features, instruction, operands)
        },
        Contents::Chain(chain) => is_unfitted_chain(features, chain),
        Contents::Nothing
        | Contents::MarkedConstant(_)
        | Contents::Constant(_)
        | Contents::Space(_)
        | Contents::Areas(_)
        | Contents::AddressConstant(_) => false,
    }
}

/// Whether no operand names a label.
fn is_unused(notes: &Notes, label: LabelField) -> bool
    ensures { result ≡ is_unused (known_of notes.now) (well_formed label) }
{
    match label {
        LabelField::Label(label) => !notes.named.contains(&label),
        LabelField::Absent | LabelField::Malformed => false,
    }
}

/// Whether a statement is a field of areas.
fn is_of_areas(areas: AreaRole) -> bool
    ensures { result ≡ is_of_areas areas }
{
    match areas {
        AreaRole::Divides(_) => true,
        AreaRole::Ends | AreaRole::Keeps | AreaRole::Makes(_) => false,
    }
}

/// Whether a branch with this d-character tests the last comparison.
fn tests_comparison(d: u8) -> bool
    ensures { result ≡ tests_comparison d }
{
    d == b'/' || d == b'S' || d == b'T' || d == b'U'
}

/// Whether a branch with this d-character tests an indicator that no instruction sets.
fn is_unset(notes: &Notes, d: u8) -> bool
    ensures { result ≡ is_unset (known_of notes.now) d }
{
    (tests_comparison(d) && !notes.compares) || (d == b'Z' && !notes.adds)
}

/// Whether a statement branches by an indicator that no instruction sets.
fn branches_unset(notes: &Notes, contents: Contents) -> bool
    ensures { result ≡ branches_unset (known_of notes.now) contents }
{
    match contents {
        Contents::Instruction(instruction, operands) => match (operands.b, operands.d) {
            (OperandField::Absent, Some(d)) => {
                instruction.operation == b'B' && is_unset(notes, d)
            },
            (OperandField::Absent | OperandField::Malformed | OperandField::Operand(_), _) => {
                false
            },
        },
        Contents::Nothing
        | Contents::MarkedConstant(_)
        | Contents::Constant(_)
        | Contents::Space(_)
        | Contents::Areas(_)
        | Contents::Chain(_)
        | Contents::AddressConstant(_) => false,
    }
}

/// Whether an operand is a literal with a sign.
fn is_signed_literal(field: OperandField) -> bool
    ensures { result ≡ is_signed_literal field }
{
    matches!(
        field,
        OperandField::Operand(Operand::Literal(Literal::Constant(
            Constant::Plus(_) | Constant::Minus(_)
        )))
    )
}

/// The symbol that an operand is, without an adjustment and an index register.
fn lone_symbol(field: OperandField) -> Option<Label>
    ensures { result ≡ lone_symbol field }
{
    match field {
        OperandField::Operand(Operand::Address(address))
            if address.adjustment == 0 && address.index.unwrap_or(0) == 0 => {
            match address.base {
                Base::Symbol(label) => Some(label),
                Base::Number(_) | Base::Here | Base::Register(_) | Base::NextHundred => None,
            }
        },
        OperandField::Operand(Operand::Address(_) | Operand::Literal(_) | Operand::Unit(_))
        | OperandField::Absent
        | OperandField::Malformed => None,
    }
}

/// Whether a number without a sign has the label, and no line brings one into it.
fn stays_unsigned(notes: &Notes, label: Label) -> bool
    ensures { result ≡ stays_unsigned (known_of notes.now) label }
{
    notes.numbers.contains(&label) && !notes.signed.contains(&label)
}

/// Whether one operand is a literal with a sign, and the other a number that has none.
fn are_unlike(notes: &Notes, literal: OperandField, field: OperandField) -> bool
    ensures { result ≡ are_unlike (known_of notes.now) literal field }
{
    match lone_symbol(field) {
        Some(label) => is_signed_literal(literal) && stays_unsigned(notes, label),
        None => false,
    }
}

/// Whether a statement compares a literal with a sign with a number that has none.
fn compares_unlike(notes: &Notes, contents: Contents) -> bool
    ensures { result ≡ compares_unlike (known_of notes.now) contents }
{
    match contents {
        Contents::Instruction(instruction, operands) => {
            instruction.operation == b'C'
                && (are_unlike(notes, operands.a, operands.b)
                    || are_unlike(notes, operands.b, operands.a))
        },
        Contents::Nothing
        | Contents::MarkedConstant(_)
        | Contents::Constant(_)
        | Contents::Space(_)
        | Contents::Areas(_)
        | Contents::Chain(_)
        | Contents::AddressConstant(_) => false,
    }
}

/// The fifth character of an instruction of this length before a cell: that cell's, or else any but a blank.
fn fifth_before(length: u32, cell: Cell) -> Char
    ensures { result ≡ fifth_before length cell }
{
    if length == 4 {
        cell.char
    } else {
        Char::of_digit(1, 0)
    }
}

/// Whether an instruction of this length ends before a cell.
fn ends(operation: u8, length: u32, cell: Cell) -> bool
    ensures { result ≡ ends operation length cell }
{
    cell.mark || length >= u32::from(longest_at(operation, fifth_before(length, cell)))
}

/// The place after an instruction of this length, if it is read on there.
fn open_place(storage: &[Cell], operation: u8, length: u32, place: u32) -> Option<u32>
    ensures { result ≡ open_place storage.now operation length place }
{
    match storage.get(place as usize) {
        Some(cell) if !ends(operation, length, *cell) => Some(place),
        Some(_) | None => None,
    }
}

/// The place at which the last instruction of a chain is read on that begins at this address.
fn chain_read_on(storage: &[Cell], address: u16, chain: Chain) -> Option<u32>
    ensures { result ≡ chain_read_on storage.now address chain }
{
    let place = u32::from(address) + chain_length(chain);
    match chain.operation {
        Some(operation) => open_place(storage, operation, 1, place),
        None => None,
    }
}

/// The place at which a statement is read on that begins at this address.
fn read_on(storage: &[Cell], address: u16, contents: Contents) -> Option<u32>
    ensures { result ≡ read_on storage.now address contents }
{
    match contents {
        Contents::Instruction(instruction, operands) => {
            let length = instruction_length(operands);
            let place = u32::from(address) + length;
            open_place(storage, instruction.operation, length, place)
        },
        Contents::Chain(chain) => chain_read_on(storage, address, chain),
        Contents::Nothing
        | Contents::MarkedConstant(_)
        | Contents::Constant(_)
        | Contents::Space(_)
        | Contents::Areas(_)
        | Contents::AddressConstant(_) => None,
    }
}

/// Whether a graphic is one of these.
fn is_one_of(graphics: &[u8], graphic: u8) -> bool
    ensures { result ≡ is_one_of graphics.now graphic }
{
    graphics.iter().any(|each| *each == graphic)
}

/// Whether a branch of five characters may branch by this d-character on a machine with these features. K asks a tape
/// unit.
fn is_condition(features: Features, d: u8) -> bool
    ensures { result ≡ is_condition features d }
{
    is_one_of(b"/STUZABCDEFG9@", d) || (features.tapes && d == b'K')
}

/// Whether a branch of this operation, with a second address or without, never branches with this d-character.
fn is_idle(features: Features, operation: u8, has_second: bool, d: u8) -> bool
    ensures { result ≡ is_idle features operation has_second d }
{
    if operation == b'V' {
        !is_one_of(b"12BKS3CLT", d)
    } else {
        operation == b'B' && !has_second && !is_condition(features, d)
    }
}

/// Whether a statement is a branch that its d-character never lets branch.
fn never_branches(features: Features, contents: Contents) -> bool
    ensures { result ≡ never_branches features contents }
{
    match contents {
        Contents::Instruction(instruction, operands) => match operands.d {
            Some(d) => is_idle(
                features,
                instruction.operation,
                !matches!(operands.b, OperandField::Absent),
                d,
            ),
            None => false,
        },
        Contents::Nothing
        | Contents::MarkedConstant(_)
        | Contents::Constant(_)
        | Contents::Space(_)
        | Contents::Areas(_)
        | Contents::Chain(_)
        | Contents::AddressConstant(_) => false,
    }
}

/// Whether a phase may begin at what an address is counted from.
fn may_begin(base: Base) -> bool
    ensures { result ≡ may_begin base }
{
    match base {
        Base::Number(number) => number != 0,
        Base::Symbol(_) | Base::Register(_) => true,
        Base::Here | Base::NextHundred => false,
    }
}

/// Whether an operand names a place at which a phase may begin.
fn names_phase(field: OperandField) -> bool
    ensures { result ≡ names_phase field }
{
    match field {
        OperandField::Operand(Operand::Address(address)) => may_begin(address.base),
        OperandField::Operand(Operand::Literal(_) | Operand::Unit(_))
        | OperandField::Absent
        | OperandField::Malformed => false,
    }
}

/// Whether a statement with this addressing is an EX or XFR that names a phase.
fn starts_nothing(addressing: Addressing) -> bool
    ensures { result ≡ starts_nothing addressing }
{
    match addressing {
        Addressing::Value(operands) => names_phase(operands.a),
        Addressing::Nothing
        | Addressing::Addresses(_)
        | Addressing::EarlierValue(_)
        | Addressing::Equal(_)
        | Addressing::Entry(_) => false,
    }
}

/// Adds a warning, if there is one.
fn warn_if(
    warnings: &mut Vec<Warning>,
    is: bool,
    line: u64,
    kind: WarningKind,
) -> Result<(), AsmFault>
    ensures ok { OnOk result (warnings.new.items ≡ warnings.old.items ++ warned_if is line kind) }
    ensures err { IfErr result IsMemory }
{
    if is {
        warnings.push(Warning { line, kind })?;
    }
    Ok(())
}

/// Adds the warning that an instruction is read on at a place, if it is.
fn warn_of(warnings: &mut Vec<Warning>, place: Option<u32>, line: u64) -> Result<(), AsmFault>
    ensures ok { OnOk result (warnings.new.items ≡ warnings.old.items ++ warned_of place line) }
    ensures err { IfErr result IsMemory }
{
    if let Some(place) = place {
        warnings.push(Warning {
            line,
            kind: WarningKind::ReadOn(place),
        })?;
    }
    Ok(())
}

/// Adds the warning of an overlap, if there is one.
fn warn_of_overlap(
    warnings: &mut Vec<Warning>,
    overlap: Option<Overlap>,
    line: u64,
) -> Result<(), AsmFault>
    ensures ok { OnOk result (warnings.new.items ≡ warnings.old.items ++ overlap_warned overlap line) }
    ensures err { IfErr result IsMemory }
{
    if let Some(overlap) = overlap {
        warnings.push(Warning {
            line,
            kind: WarningKind::Overlaps(overlap),
        })?;
    }
    Ok(())
}

/// Adds the warning of a loss, if there is one.
fn warn_of_loss(warnings: &mut Vec<Warning>, loss: Option<Loss>, line: u64) -> Result<(), AsmFault>
    ensures ok { OnOk result (warnings.new.items ≡ warnings.old.items ++ loss_warned loss line) }
    ensures err { IfErr result IsMemory }
{
    if let Some(loss) = loss {
        warnings.push(Warning {
            line,
            kind: WarningKind::Loses(loss),
        })?;
    }
    Ok(())
}

/// What is known of a line by where it is and by its columns.
#[derive(Clone, Copy)]
pub struct LineFacts {
    /// The address at which it begins.
    pub address: u16,
    /// Its first place that an earlier line fills.
    pub overlap: Option<Overlap>,
    /// What it loses.
    pub loss: Option<Loss>,
}

/// What is known of all lines when one is warned of.
#[derive(Drop)]
struct Context<'a> {
    /// What is placed once all is.
    all: &'a Placing<'a>,
    /// What the machine is fitted with.
    features: Features,
    /// What they say of labels, and which indicators they can set.
    notes: Notes,
    /// Core storage as their cells fill it.
    storage: Vec<Cell>,
}

impl<'a> Context<'a> {
    /// What is known of these lines for core storage of this size on a machine with these features, once all is placed.
    fn new(
        alloc: Global,
        all: &'a Placing<'a>,
        size: u16,
        features: Features,
        lines: &Lines<'_>,
    ) -> Result<Context<'a>, AsmFault>
        requires { places_of all.now ≡ placed lines.now }
        ensures all { IfOk result (λ this. this.all.now ≡ all.now) }
        ensures features { IfOk result (λ this. this.features ≡ features) }
        ensures notes { IfOk result (λ this. known_of this.notes ≡ known_with features lines.now) }
        ensures storage { IfOk result (λ this. this.storage.items ≡ filled size lines.now) }
        ensures err { IfErr result IsMemory }
    {
        let notes = notes_with(alloc, all.hashing, features, lines)?;
        let storage = fill(alloc, all, size, lines)?;
        Ok(Context {
            all,
            features,
            notes,
            storage,
        })
    }
}

/// Adds the warnings of a statement by what it says, on the line of this number.
fn warn_of_own(
    warnings: &mut Vec<Warning>,
    features: Features,
    notes: &Notes,
    number: u64,
    statement: Statement,
) -> Result<(), AsmFault>
    ensures ok { OnOk result
        (warnings.new.items ≡ warnings.old.items ++ own_warnings features (known_of notes.now) number statement) }
    ensures err { IfErr result IsMemory }
{
    let row = statement.body.describe();
    let not_fitted = is_not_fitted(features, row.contents);
    let unused = is_unused(notes, statement.label) && !is_of_areas(row.areas);
    let unset = branches_unset(notes, row.contents);
    let unlike = compares_unlike(notes, row.contents);
    let idle = never_branches(features, row.contents);
    let starts = starts_nothing(row.addressing);
    warn_if(warnings, not_fitted, number, WarningKind::NotFitted)?;
    warn_if(warnings, unused, number, WarningKind::UnusedLabel)?;
    warn_if(warnings, unset, number, WarningKind::UnsetIndicator)?;
    warn_if(warnings, unlike, number, WarningKind::UnlikeSigns)?;
    warn_if(warnings, idle, number, WarningKind::NeverBranches)?;
    warn_if(warnings, starts, number, WarningKind::StartsNothing)
}

/// Adds the warnings of a statement by where it is and what its line has.
fn warn_of_place(
    warnings: &mut Vec<Warning>,
    storage: &[Cell],
    number: u64,
    facts: LineFacts,
    statement: Statement,
) -> Result<(), AsmFault>
    ensures ok { OnOk result (warnings.new.items
        ≡ warnings.old.items ++ place_warnings storage.now number facts statement) }
    ensures err { IfErr result IsMemory }
{
    let row = statement.body.describe();
    let place = read_on(storage, facts.address, row.contents);
    warn_of(warnings, place, number)?;
    warn_of_overlap(warnings, facts.overlap, number)?;
    warn_of_cut(warnings, facts.loss, number, statement)
}

/// Warns of what a statement loses, whose line loses this.
fn warn_of_cut(
    warnings: &mut Vec<Warning>,
    loss: Option<Loss>,
    number: u64,
    statement: Statement,
) -> Result<(), AsmFault>
    ensures ok { OnOk result (warnings.new.items ≡ warnings.old.items ++ cut_warned number loss statement) }
    ensures err { IfErr result IsMemory }
{
    let row = statement.body.describe();
    if row.is_remark {
        return Ok(());
    }
    let left = loss_left(has_whole_text(&row.contents), loss);
    warn_of_loss(warnings, left, number)
}

/// Whether a constant is a text with an at sign in it, which goes on to the last one of its line.
fn holds_at_sign(constant: &Option<Constant>) -> bool
    ensures { result ≡ holds_at_sign constant.now }
{
    match constant {
        Some(Constant::Text(text)) => has_at_sign(text.as_slice()),
        Some(Constant::Number(_) | Constant::Plus(_) | Constant::Minus(_) | Constant::Blanks(_))
        | None => false,
    }
}

/// Whether contents are such a constant.
fn has_whole_text(contents: &Contents) -> bool
    ensures { result ≡ has_whole_text contents.now }
{
    match contents {
        Contents::MarkedConstant(constant) | Contents::Constant(constant) => {
            holds_at_sign(constant)
        }
        Contents::Nothing
        | Contents::Instruction(..)
        | Contents::Space(_)
        | Contents::Areas(_)
        | Contents::Chain(_)
        | Contents::AddressConstant(_) => false,
    }
}

/// What a line loses, if its text is whole or not.
fn loss_left(is_whole: bool, loss: Option<Loss>) -> Option<Loss>
    ensures { result ≡ loss_left is_whole loss }
{
    match loss {
        Some(Loss::Text) if is_whole => None,
        loss => loss,
    }
}

/// What a line loses that is read as a comment: all of it, if it is a card for the system.
fn card_lost(loss: Option<Loss>) -> Option<Loss>
    ensures { result ≡ card_lost loss }
{
    match loss {
        Some(Loss::Card) => loss,
        Some(Loss::Text | Loss::Column73) | None => None,
    }
}

/// Adds the warnings of the line of this number.
fn warn_of_line(
    warnings: &mut Vec<Warning>,
    this: &Context<'_>,
    number: u64,
    facts: LineFacts,
    line: &Line,
) -> Result<(), AsmFault>
    ensures ok { OnOk result (warnings.new.items ≡ warnings.old.items
        ++ line_warnings this.now.features (known_of this.now.notes) this.now.storage.items number facts line.now) }
    ensures err { IfErr result IsMemory }
{
    match line.statement {
        Some(statement) => {
            warn_of_own(warnings, this.features, &this.notes, number, statement)?;
            warn_of_place(warnings, &this.storage, number, facts, statement)
        }
        None => warn_of_loss(warnings, card_lost(facts.loss), number),
    }
}

/// The warnings of the lines so far.
#[derive(Drop)]
struct WarningsSoFar<'a> {
    /// What is placed so far.
    so_far: Placing<'a>,
    /// The numbers of the lines that fill the places of core storage, 0 for none.
    fillers: Vec<u32>,
    /// The warnings.
    warnings: Vec<Warning>,
}

impl<'a> WarningsSoFar<'a> {
    /// None, before the first line.
    fn new(alloc: Global, all: &Placing<'a>, size: u16) -> Result<WarningsSoFar<'a>, AsmFault>
        ensures placed { IfOk result (λ made. places_of made.so_far ≡ unplaced (places_of all.now)) }
        ensures fillers { IfOk result (λ made. made.fillers.items ≡ replicate size 0) }
        ensures warnings { IfOk result (λ made. made.warnings.items ≡ []) }
        ensures err { IfErr result IsMemory }
    {
        let fillers = vec![in alloc; 0u32; usize::from(size)]?;
        Ok(WarningsSoFar {
            so_far: Placing::new(alloc, all.hashing, all.chains),
            fillers,
            warnings: Vec::new(alloc),
        })
    }

    /// What is known of a line of this text by where it is, with this many of the lines above it. Its places are filled
    /// by it afterwards.
    fn facts(
        &mut self,
        alloc: Global,
        all: &Placing<'_>,
        lines: &Lines<'_>,
        n: usize,
        text: &[u8],
        line: &Line,
    ) -> Result<LineFacts, AsmFault>
        requires few { length lines.now < 2 ^ 32 }
        requires line { n < length lines.now }
        ensures facts { IfOk result (λ facts. facts ≡ facts_of (address_or_zero (places_of self.old.so_far).next)
            (first_overlap self.old.fillers.items (take n lines.now)
            (filled_by (places_of all.now) (places_of self.old.so_far) line.now (drop (n + 1) lines.now)))
            (loss_of text.now)) }
        ensures fillers { OnOk result (self.new.fillers.items ≡ with_filler (n + 1)
            (filled_by (places_of all.now) (places_of self.old.so_far) line.now (drop (n + 1) lines.now)).first
            (filled_by (places_of all.now) (places_of self.old.so_far) line.now (drop (n + 1) lines.now)).count
            self.old.fillers.items) }
        ensures same { (self.new.so_far ≡ self.old.so_far) × (self.new.warnings ≡ self.old.warnings) }
        ensures err { IfErr result IsMemory }
    {
        let beyond = lines.beyond(n);
        let places = FilledPlaces::of_line(alloc, all, &self.so_far, line, &beyond)?;
        let overlap = put_places(&mut self.fillers, lines, n, places)?;
        Ok(LineFacts {
            address: self.so_far.address(),
            overlap,
            loss: loss_of(text),
        })
    }

    /// Adds the warnings of a line of this text, with this many of the lines above it, and places it.
    fn put_line(
        &mut self,
        alloc: Global,
        this: &Context<'_>,
        lines: &Lines<'_>,
        n: usize,
        text: &[u8],
        line: &Line,
    ) -> Result<(), AsmFault>
        requires few { length lines.now < 2 ^ 32 }
        requires line { n < length lines.now }
        ensures warned { OnOk result (self.new.warnings.items ≡ self.old.warnings.items
            ++ line_warnings this.now.features (known_of this.now.notes) this.now.storage.items (n + 1)
            (facts_of (address_or_zero (places_of self.old.so_far).next)
            (first_overlap self.old.fillers.items (take n lines.now)
            (filled_by (places_of this.now.all.now) (places_of self.old.so_far) line.now (drop (n + 1) lines.now)))
            (loss_of text.now)) line.now) }
        ensures fillers { OnOk result (self.new.fillers.items ≡ with_filler (n + 1)
            (filled_by (places_of this.now.all.now) (places_of self.old.so_far) line.now (drop (n + 1) lines.now)).first
            (filled_by (places_of this.now.all.now) (places_of self.old.so_far) line.now (drop (n + 1) lines.now)).count
            self.old.fillers.items) }
        ensures placed { OnOk result
            (places_of self.new.so_far ≡ placed_after (places_of self.old.so_far) line.now) }
        ensures err { IfErr result IsMemory }
    {
        let facts = self.facts(alloc, this.all, lines, n, text, line)?;
        warn_of_line(&mut self.warnings, this, n as u64 + 1, facts, line)?;
        self.so_far.place(line)?;
        Ok(())
    }

    /// Adds the warnings of the lines of a source.
    fn put_lines(
        &mut self,
        alloc: Global,
        this: &Context<'_>,
        source: &[u8],
        lines: &Lines<'_>,
    ) -> Result<(), AsmFault>
        requires few { length lines.now < 2 ^ 32 }
        requires as_many { length lines.now ≡ length (lines_of source.now) }
        ensures warned { OnOk result (self.new.warnings.items ≡ self.old.warnings.items
            ++ warnings_from this.now.features (known_of this.now.notes) this.now.storage.items 1
            (addresses_from (places_of self.old.so_far) lines.now)
            (overlaps_from lines.now self.old.fillers.items 0
            (filled_from (places_of this.now.all.now) (places_of self.old.so_far) lines.now))
            (losses_of source.now) lines.now) }
        ensures err { IfErr result IsMemory }
    {
        let mut sources = source;
        for i in 0..lines.len() {
            let Some((text, rest)) = split_line(sources) else {
                unreachable!()
            };
            self.put_line(alloc, this, lines, i, text, &lines.line(i))?;
            sources = rest;
        }
        Ok(())
    }

    /// The warnings so far and those of the lines of a source.
    fn finish(
        self,
        alloc: Global,
        this: &Context<'_>,
        source: &[u8],
        lines: &Lines<'_>,
    ) -> Result<Vec<Warning>, AsmFault>
        requires few { length lines.now < 2 ^ 32 }
        requires as_many { length lines.now ≡ length (lines_of source.now) }
        ensures warned { IfOk result (λ warnings. warnings.items ≡ self.entry.warnings.items
            ++ warnings_from this.now.features (known_of this.now.notes) this.now.storage.items 1
            (addresses_from (places_of self.entry.so_far) lines.now)
            (overlaps_from lines.now self.entry.fillers.items 0
            (filled_from (places_of this.now.all.now) (places_of self.entry.so_far) lines.now))
            (losses_of source.now) lines.now) }
        ensures err { IfErr result IsMemory }
    {
        let mut made = self;
        made.put_lines(alloc, this, source, lines)?;
        Ok(made.warnings)
    }
}

/// The warnings of the lines of a source for core storage of this size on a machine with these features, once all is
/// placed.
fn warnings_placed(
    alloc: Global,
    all: &Placing<'_>,
    size: u16,
    features: Features,
    source: &[u8],
    lines: &Lines<'_>,
) -> Result<Vec<Warning>, AsmFault>
    requires few { length lines.now < 2 ^ 32 }
    requires as_many { length lines.now ≡ length (lines_of source.now) }
    requires placed { places_of all.now ≡ placed lines.now }
    ensures ok { IfOk result
        (λ warnings. warnings.items ≡ all_warnings features size source.now lines.now) }
    ensures err { IfErr result IsMemory }
{
    let this = Context::new(alloc, all, size, features, lines)?;
    let made = WarningsSoFar::new(alloc, all, size)?;
    made.finish(alloc, &this, source, lines)
}

/// The chains of EQUs of lines.
fn chains_of_lines(
    alloc: Global,
    hashing: SourceHashing,
    lines: &Lines<'_>,
) -> Result<Chains, AsmFault>
    requires { length lines.now < 2 ^ 32 }
    ensures ok { IfOk result (λ chains. chains_view chains ≡ chains_of (sites_of lines.now) lines.now) }
    ensures err { IfErr result IsMemory }
{
    let symbols = declared(alloc, hashing, Language::Ibm, lines)?;
    Ok(symbols.chains)
}

/// The warnings of the lines of a source for core storage of this size on a machine with these features.
fn warnings_in(
    alloc: Global,
    size: u16,
    features: Features,
    source: &[u8],
    lines: &Lines<'_>,
) -> Result<Vec<Warning>, AsmFault>
    requires few { length lines.now < 2 ^ 32 }
    requires as_many { length lines.now ≡ length (lines_of source.now) }
    ensures ok { IfOk result
        (λ warnings. warnings.items ≡ all_warnings features size source.now lines.now) }
    ensures err { IfErr result IsMemory }
{
    let hashing = SourceHashing::from_source(source);
    let chains = chains_of_lines(alloc, hashing, lines)?;
    let all = place_all(alloc, hashing, &chains, lines)?;
    let warnings = warnings_placed(alloc, &all, size, features, source, lines)?;
    Ok(warnings)
}

/// The warnings of a source in this language, for core storage of this size on a machine with these features: in the
/// order of its lines, and those of a line in the order of the kinds. They speak of a source that assembles: in one with a
/// fault they may only follow from it, as that of a label which a misspelled operand should name.
///
/// # Errors
///
/// `Memory` if memory is refused or the source is too long.
pub fn source_warnings(
    alloc: Global,
    language: Language,
    source: &[u8],
    size: u16,
    features: Features,
) -> Result<Vec<Warning>, AsmFault>
    ensures ok { IfOk result (λ warnings. warnings.items
        ≡ all_warnings features size source.now (lines_in language source.now)) }

    // Each machine carries out each instruction of what the plain language takes: no warning says otherwise.
    ensures carried_out { IfOk result (λ warnings. PlainIsCarriedOut source.now warnings.items) }

    // Features add none: each is one of those for a machine without features.
    ensures fewer { IfOk result (λ warnings. All
        (Contains (all_warnings no_features size source.now (lines_in language source.now))) warnings.items) }
    ensures err { IfErr result IsMemory }
{
    let lines = read_lines(alloc, language, source)?;
    let warnings = warnings_in(alloc, size, features, source, &lines.lend())?;
    Ok(warnings)
}

/// Warns of what isn't read of the line of this number, which loses this, and of what it doesn't start.
fn warn_of_lost(
    warnings: &mut Vec<Warning>,
    number: u64,
    loss: Option<Loss>,
    line: &Line,
) -> Result<(), AsmFault>
    ensures ok { OnOk result
        (warnings.new.items ≡ warnings.old.items ++ lost_with number loss line.now.statement) }
    ensures err { IfErr result IsMemory }
{
    match line.statement {
        Some(statement) => {
            let row = statement.body.describe();
            let starts = starts_nothing(row.addressing);
            warn_if(warnings, starts, number, WarningKind::StartsNothing)?;
            warn_of_cut(warnings, loss, number, statement)
        }
        None => warn_of_loss(warnings, card_lost(loss), number),
    }
}

/// Those of the lines of a source.
fn lost_in(alloc: Global, source: &[u8], lines: &Lines<'_>) -> Result<Vec<Warning>, AsmFault>
    requires few { length lines.now < 2 ^ 32 }
    requires as_many { length lines.now ≡ length (lines_of source.now) }
    ensures ok { IfOk result (λ warnings. warnings.items ≡ lost_from 1 (losses_of source.now) lines.now) }
    ensures err { IfErr result IsMemory }
{
    let mut warnings = Vec::new(alloc);
    let mut sources = source;
    for i in 0..lines.len() {
        let Some((text, rest)) = split_line(sources) else {
            unreachable!()
        };
        warn_of_lost(&mut warnings, i as u64 + 1, loss_of(text), &lines.line(i))?;
        sources = rest;
    }
    Ok(warnings)
}

/// Those warnings of a source in this language that are of what isn't read and of what isn't started: it looks as if the
/// program were another one. They are the same for each size of core storage and each machine, so nothing is placed.
///
/// # Errors
///
/// `Memory` if memory is refused or the source is too long.
pub fn lost_warnings(
    alloc: Global,
    language: Language,
    source: &[u8],
) -> Result<Vec<Warning>, AsmFault>
    ensures ok { IfOk result (λ warnings. (features : Features) → (size : ℕ)
        → warnings.items ≡ filter is_lost (all_warnings features size source.now (lines_in language source.now))) }
    ensures err { IfErr result IsMemory }
{
    let lines = read_lines(alloc, language, source)?;
    let warnings = lost_in(alloc, source, &lines.lend())?;
    Ok(warnings)
}
