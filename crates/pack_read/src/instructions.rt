// The instructions of a sheet, one after another.
ghost use Rattle.std.specs.Prelude.{◌≡◌, true, ◌<◌, ◌≤◌, length};
ghost use Rattle.std.specs.Iterator.{YieldsFirstBy, item_count};
ghost use Rattle.pack.specs.Contents.{literal_count, sheet_count};
ghost use Rattle.pack.specs.Format.{instruction_limit};
ghost use Rattle.pack.specs.Instruction.{instr_of, EachAllowed};
ghost use Rattle.pack.specs.Judge.{question5, Placed};
ghost use Rattle.pack.specs.Read.{program};

use crate::sheet_span;
use pack::instruction::{Instruction, instruction_width, read_instruction};
use std::marker::Model;

// What is left of a sheet: its instructions from the one with a number on, which stands at a position, up to the end.
#[derive(Drop)]
pub struct Instructions<'a> {
    pack: &'a [u8],
    sheet: usize,
    number: usize,
    at: usize,
    end: usize,
}

impl<'a> Model for Instructions<'a> {
    ghost use Rattle.std.specs.Prelude.{List, drop};
    ghost use Rattle.pack.specs.Instruction.{Instr};
    ghost use Rattle.pack.specs.Read.{program};
    ghost use Rattle.pack_read.specs.Left.{Left};

    ghost Value = { List Instr };

    ghost view = { λ i. drop i.number (program i.pack.now i.sheet) };

    ghost invariant = { λ i. Left i.pack.now i.sheet i.number i.at i.end };
}

// The instructions of a sheet.
pub fn instructions_of(p: &[u8], sheet: usize) -> Instructions<'_>
    requires placed { Placed p.now × (question5 p.now ≡ true) }
    requires sheet_bound { sheet < sheet_count p.now }
    ensures program { result ≡ program p.now sheet }
    ensures few { length result ≤ instruction_limit }
    ensures allowed { EachAllowed (literal_count p.now) result }
{
    let span = sheet_span(p, sheet);
    Instructions {
        pack: p,
        sheet,
        number: 0,
        at: span.start,
        end: span.end,
    }
}

impl<'a> Iterator for Instructions<'a> {
    type Item = Instruction;

    ghost next_gives = { YieldsFirstBy instr_of (λ left. left) };

    ghost remaining = { item_count (λ left. left) };

    fn next(&mut self) -> Option<Instruction> {
        if self.end <= self.at {
            return None;
        }
        let i = read_instruction(self.pack, self.at);
        self.at += instruction_width(i);
        self.number += 1;
        Some(i)
    }
}
