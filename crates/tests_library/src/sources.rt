//! What is made of a source, and what is said of it.
ghost use Rattle.std.specs.Prelude.{IfOk};
ghost use Rattle.machine_image.specs.Image.{IsInCore};

use crate::images::{show_image, show_packed};
use crate::trial::Trial;
use autocoder_1401::{
    AsmFault, AsmKind, Assembly, AssemblyProgram, AssemblyTables, Image, Language, WarningKind,
    assemble, assemble_image, assemble_in, assemble_listing, assemble_packed, assemble_program,
    assemble_with_tables, explained_faults, fault_lines, faults, warning_lines, warnings,
    write_listing,
};
use console_1401::{Line, ToWriter, parse_line};
use cpu_1401::Features;
use room_1401::Command;

/// Five and five are ten.
pub const SOURCE: &[u8] =
    b"               ORG  400\n     START     ZA   +5,TOTAL\n               A    +5,TOTAL\n\
    \x20              H    *-3\n     TOTAL     DCW  #3\n     NAME      DCW  @HI@\n\
    \x20    * ONE LITERAL, TWO USES\n               END  START\n";

/// A source of one line.
pub const END: &[u8] = b"               END  400\n";

/// A source that doesn't end.
pub const NO_END: &[u8] = b"";

/// A source whose operation isn't known.
pub const UNKNOWN: &[u8] = b"               MU";

/// A source whose operand isn't in core.
pub const OUTSIDE: &[u8] = b"               END  9999";

/// A source that names a label which no line declares.
pub const UNDECLARED: &[u8] = b"               B    Q\n";

/// What is asked for.
pub enum Asked {
    /// The image and the listing.
    Assembly,
    /// The same in a language.
    AssemblyIn(Language),
    /// The image alone.
    Image(Language),
    /// The image in few bytes.
    Packed,
    /// The image, the rows of the listing and the symbols.
    Program,
    /// The image, and the texts of both tables.
    Tables,
    /// The listing, ready to be written.
    Listing,
    /// All faults, and their texts.
    Faults,
    /// All warnings, and their texts.
    Warnings,
}

/// Makes what is asked for of a source, and shows it.
pub fn make(trial: &mut Trial, asked: &Asked, source: &[u8]) {
    match asked {
        Asked::Assembly => show_assembly(trial, assemble(trial.alloc, source, 4_000)),
        Asked::AssemblyIn(language) => {
            show_assembly(trial, assemble_in(trial.alloc, *language, source, 4_000));
        }
        Asked::Image(language) => match assemble_image(trial.alloc, *language, source, 4_000) {
            Ok(image) => show_image(trial, &image),
            Err(fault) => show_fault(trial, fault),
        },
        Asked::Packed => match assemble_packed(trial.alloc, Language::Plain, source, 4_000) {
            Ok(image) => show_packed(trial, image),
            Err(fault) => show_fault(trial, fault),
        },
        Asked::Program => show_program(trial, source),
        Asked::Tables => show_tables(trial, source),
        Asked::Listing => match assemble_listing(trial.alloc, Language::Plain, source, 4_000) {
            Ok(ready) => {
                let written = write_listing(ready, source, &mut ToWriter::new(trial.output));
                trial.show("written", &written);
            }
            Err(fault) => show_fault(trial, fault),
        },
        Asked::Faults => show_faults(trial, source),
        Asked::Warnings => show_warnings(trial, source),
    }
}

/// Shows the fault of a source.
pub fn show_fault(trial: &mut Trial, fault: AsmFault) {
    match fault.kind {
        AsmKind::Memory => trial.refuse("for a source"),
        kind => trial.tell(format_args!("line {}: {} {kind:?}", fault.line, kind.number())),
    }
}

/// Shows an image and a listing.
fn show_assembly(trial: &mut Trial, assembled: Result<Assembly, AsmFault>)
    requires { IfOk assembled (λ assembly. IsInCore assembly.image) }
{
    match assembled {
        Ok(Assembly { image, listing }) => {
            for line in listing.as_slice() {
                trial.text(line.as_slice());
            }
            show_image(trial, &image);
        }
        Err(fault) => show_fault(trial, fault),
    }
}

/// Shows the image, a row and the symbols of a source, and which line placed an instruction.
fn show_program(trial: &mut Trial, source: &[u8]) {
    match assemble_program(trial.alloc, Language::Plain, source, 4_000) {
        Ok(
            AssemblyProgram {
                image,
                rows,
                symbols,
            },
        ) => {
            trial.show("symbols and rows", &(symbols.len(), rows.as_slice().len()));
            trial.show("row 2", &rows.as_slice().get(1));
            if let Ok(Line::Command(command)) = parse_line(b"DEPOSIT 0407 ~A423420") {
                if let Command::Deposit { address, cells } = &command {
                    match rows.line_of(trial.alloc, *address, cells.as_slice()) {
                        Ok(number) => trial.show("the line that placed 407", &number),
                        Err(fault) => show_fault(trial, fault),
                    }
                }
            }
            show_packed(trial, image);
        }
        Err(fault) => show_fault(trial, fault),
    }
}

/// Shows both tables of a source, its listing, and the cells of its image.
fn show_tables(trial: &mut Trial, source: &[u8]) {
    match assemble_with_tables(trial.alloc, Language::Plain, source, 4_000) {
        Ok(
            AssemblyTables {
                image,
                listing,
                symbols,
                references,
            },
        ) => {
            trial.text(symbols.as_slice());
            trial.text(references.as_slice());
            let written = write_listing(listing, source, &mut ToWriter::new(trial.output));
            trial.show("written", &written);
            trial.show("size, start", &(image.size, image.start));
            for segment in image.segments.as_slice() {
                trial.print(format_args!("{} ", segment.address));
                trial.cells(segment.cells.as_slice());
                trial.tell("");
            }
        }
        Err(fault) => show_fault(trial, fault),
    }
}

/// Shows all faults of a source, and their texts.
fn show_faults(trial: &mut Trial, source: &[u8]) {
    match faults(trial.alloc, Language::Plain, source, 4_000) {
        Ok(found) => trial.show("faults", &found.as_slice()),
        Err(fault) => show_fault(trial, fault),
    }
    match explained_faults(trial.alloc, Language::Plain, source, 4_000) {
        Ok(found) => {
            let found = found.as_slice();
            match fault_lines(trial.alloc, "none", Language::Plain, source, 4_000, found) {
                Ok(lines) => trial.text(lines.as_bytes()),
                Err(_) => trial.refuse("for the texts of faults"),
            }
        }
        Err(fault) => show_fault(trial, fault),
    }
}

/// Shows all warnings of a source, and their texts.
fn show_warnings(trial: &mut Trial, source: &[u8]) {
    match warnings(trial.alloc, Language::Plain, source, 4_000, Features::NONE) {
        Ok(found) => {
            trial.show("warnings", &found.as_slice());
            match warning_lines(trial.alloc, "five", found.as_slice()) {
                Ok(lines) => trial.text(lines.as_bytes()),
                Err(_) => trial.refuse("for the texts of warnings"),
            }
        }
        Err(fault) => show_fault(trial, fault),
    }
}

/// Warnings, each at the column that it is about.
pub const COLUMNS: [WarningKind; 7] = [
    WarningKind::NotFitted,
    WarningKind::UnusedLabel,
    WarningKind::UnsetIndicator,
    WarningKind::UnlikeSigns,
    WarningKind::NeverBranches,
    WarningKind::StartsNothing,
    WarningKind::ReadOn(400),
];

/// The image of a source, in core storage of 4,000 places.
pub fn image_of(trial: &Trial, source: &[u8]) -> Result<Image, AsmFault>
    ensures { IfOk result IsInCore }
{
    assemble_image(trial.alloc, Language::Plain, source, 4_000)
}
