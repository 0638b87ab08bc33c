// The calls of the library run on file A of the scope of work, on P5 to P12, and on both sides of every bound, in files of
// both orders, one line a case. The cases are the script on standard input; their lines are held to the file stdout.
#![tactic(auto)]

mod answers;
mod batching;
mod command;
mod every;
mod files;
mod first_record;
mod holding;
mod lists;
mod printing;
mod reading;
mod writing;

use answers::{checked, handed_data, indexed, opened, sectioned, shown, tabled};
use classic::Settings;
use command::{Command, Question, Width};
use files::Room;
use first_record::{described, extended, validated};
use holding::{Held, hold};
use printing::{Case, Out, wrong};
use reading::{Reader, at_most, bytes_before, cut, int4, read_full};
use std::io;

// A script has fewer bytes than this.
const SCRIPT: usize = 131072;

// A run of a script: where its lines go, the file that the calls are made on, and the record that is held.
#[derive(Drop)]
struct Run {
    out: Out,
    room: Room,
    held: Held,
}

// Runs a command that reads the lent bytes.
fn ask(case: Case, question: Question, numbers: &[i64], file: &[u8]) -> io::Result<()> {
    match (question, numbers) {
        (Question::Validate, []) => validated(case, file),
        (Question::Describe, []) => described(case, file),
        (Question::Extension, [asked]) => extended(case, file, asked.cast_unsigned()),
        (Question::Open, [asked]) => opened(case, file, asked.cast_unsigned()),
        (Question::Tables, [asked]) => tabled(case, file, asked.cast_unsigned()),
        (Question::Index, [asked]) => indexed(case, file, asked.cast_unsigned()),
        (Question::Section, [asked, identifier]) => {
            let identifier = int4(case.out, *identifier)?;
            sectioned(case, file, asked.cast_unsigned(), identifier)
        }
        (Question::Data, [asked]) => handed_data(case, file, asked.cast_unsigned()),
        (Question::Check, []) => checked(case, file),
        (Question::Words, [first, last]) => shown(case, file, *first, *last),
        _ => wrong(case.out),
    }
}

// The settings as the first record has them, from its code on.
fn settings(out: Out, numbers: [i64; 8]) -> io::Result<Settings> {
    let [order, reclen, kind, vind, lind, flags, lex1, gex] = numbers;
    Ok(Settings {
        order: int4(out, order)?,
        reclen: int4(out, reclen)?,
        kind: int4(out, kind)?,
        vind: int4(out, vind)?,
        lind: int4(out, lind)?,
        flags: int4(out, flags)?,
        lex1: int4(out, lex1)?,
        gex: int4(out, gex)?,
    })
}

impl Run {
    // A run with nothing lent, kept or held.
    fn new(out: Out) -> Run {
        Run {
            out,
            room: Room::new(),
            held: Held::new(),
        }
    }

    // Writes the numbers of a list but the first, which is their place, over the lent bytes.
    fn put(&mut self, width: Width, numbers: &[i64]) -> io::Result<()> {
        let place = numbers.first().copied().unwrap_or(0);
        let at = match width {
            Width::One => place.cast_unsigned() as usize,
            Width::Four | Width::Eight => bytes_before(self.out, place)?,
        };
        match numbers {
            [_, values @ ..] if !values.is_empty() => self.room.put(self.out, at, width, values),
            _ => wrong(self.out),
        }
    }

    // Holds the record of a file with another number in one of the fields, which are counted from 1.
    fn alter(&mut self, field: i64, number: i64) -> io::Result<()> {
        self.held = Held::of(self.room.file());
        let field = at_most(self.out, 43, field.wrapping_sub(1))?;
        self.held.set(field, number.cast_unsigned());
        Ok(())
    }

    // Runs a command with its numbers and what stands behind them.
    fn run(
        &mut self,
        case: Case,
        command: Command,
        numbers: &[i64],
        lists: Reader,
    ) -> io::Result<()> {
        match (command, numbers, lists.rest) {
            (Command::File, [count, byte], []) => {
                self.room.lend(self.out, *count)?;
                self.room.fill(byte.to_le_bytes()[0]);
                Ok(())
            }
            (Command::Lend, [count], []) => self.room.lend(self.out, *count),
            (Command::Keep, [], letter @ [_, ..]) => self.room.keep(self.out, letter),
            (Command::Take, [], letter @ [_, ..]) => self.room.take(self.out, letter),
            (Command::Put(width), numbers, []) => self.put(width, numbers),
            (Command::Create, [order, reclen, kind, vind, lind, flags, lex1, gex], []) => {
                let numbers = [*order, *reclen, *kind, *vind, *lind, *flags, *lex1, *gex];
                self.create(case, settings(self.out, numbers)?)
            }
            (Command::Append(way), [version, index, sections, values], _) => {
                self.append(case, way, *version, [*index, *sections, *values], lists)
            }
            (Command::Batch(way), [versions, rows, index, sections, values], _) => {
                self.batch(
                    case,
                    way,
                    *versions,
                    *rows,
                    [*index, *sections, *values],
                    lists,
                )
            }
            (Command::Update(way), [asked, identifier, count], _) => {
                self.update(case, way, *asked, *identifier, *count, lists)
            }
            (Command::Every, [asked], []) => self.every(case, asked.cast_unsigned()),
            (Command::Hold, [], []) => hold(case, &mut self.held, self.room.file()),
            (Command::Alter, [field, number], []) => self.alter(*field, *number),
            (Command::Ask(question), numbers, []) => ask(case, question, numbers, self.room.file()),
            _ => wrong(self.out),
        }
    }

    // Runs a line of the script: a command, its numbers, and behind a colon and a space the name of a case.
    fn line(&mut self, line: &[u8]) -> io::Result<()> {
        if matches!(line.first(), None | Some(0 | b'#')) {
            return Ok(());
        }
        let (head, tail) = cut(line, b':');
        let name = tail.get(2..).unwrap_or(&[]);
        let (word, rest) = cut(head, b' ');
        let mut lists = Reader { rest };
        let numbers = lists.numbers::<20>();
        let case = Case {
            out: self.out,
            name,
        };
        match Command::parse(word) {
            Some(command) => self.run(case, command, numbers.as_slice(), lists),
            None => wrong(self.out),
        }
    }
}

// Reads the script and runs its lines. A read or a write that fails ends the run, and is its error.
fn main(rt: HostRuntime) -> io::Result<()> {
    let out = Out(rt.stdout());
    let mut script = [0; SCRIPT];
    let count = read_full(&mut rt.stdin(), &mut script)?;
    if count == SCRIPT {
        wrong(out)?;
    }
    let mut run = Run::new(out);
    for line in script[..count].split(|byte| *byte == b'\n') {
        run.line(line)?;
    }
    Ok(())
}
