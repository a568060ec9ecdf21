// The text of a clause certificate, line by line.
ghost use Rattle.std.specs.Prelude.{◌≡◌, ◌++◌, ◌∷◌, [], Some, length};
ghost use Rattle.std.specs.Fmt.{signed_decimal};
ghost use Rattle.graph_core.specs.Text.{newline, space};
ghost use Rattle.drup_text.specs.ClauseTexts.{carry_text};
ghost use Rattle.drup_text.specs.Headers.{second_line, third_line, version_line};
ghost use Rattle.drup_text.specs.WrittenTexts.{any_file_text, beside_text, block_head_text, blocks_header_text, blocks_text, clause_line_text, clause_lines_text, clause_text, count_text, cut_text, first_cut, header_text, literal_sign, literals_text, output_lines_text, outputs_text, pairs_text, two_text};
ghost use Rattle.pair_limits.specs.Rooms.{Takes};

use crate::room::Room;
use clause_core::{Clause, Line};
use drup_text::Header;
use graph_core::Lit;
use ripple_graft::{Beside, Block, Cut};

/// The header and lines. In version 1 only the cut of the first block is written.
pub(crate) fn put_clauses(room: &mut Room, header: &Header, lines: &[Line])
    ensures { Takes (any_file_text header.now lines.now) room.old room.new }
{
    put_header(room, header);
    put_lines(room, lines);
}

// The lines of a header.
fn put_header(room: &mut Room, header: &Header)
    ensures { Takes (header_text header.now) room.old room.new }
{
    if header.version == 3 {
        put_beside(room, &header.beside);
    } else {
        put_any_blocks(room, header);
    }
}

// The header of version 3: the gates beside the graph, and the outputs.
fn put_beside(room: &mut Room, beside: &Beside)
    ensures { Takes (third_line ++ beside_text beside.now) room.old room.new }
{
    let gates = beside.gates.as_slice();
    let outputs = beside.outputs.as_slice();
    room.put(b"joined 3\ngates ");
    room.put_number(gates.len() as u128);
    room.put(b"\n");
    put_pairs(room, gates);
    put_outputs(room, outputs);
}

// The number of outputs, and they.
fn put_outputs(room: &mut Room, outputs: &[(u32, Lit)])
    ensures { Takes (outputs_text outputs.now) room.old room.new }
{
    room.put(b"replace ");
    room.put_number(outputs.len() as u128);
    room.put(b"\n");
    put_output_lines(room, outputs);
}

// Outputs, each in a line.
fn put_output_lines(room: &mut Room, outputs: &[(u32, Lit)])
    ensures { Takes (output_lines_text outputs.now) room.old room.new }
{
    for output in outputs {
        put_two(room, u128::from(output.0), u128::from(output.1.0));
    }
}

// The header of version 1 or 2.
fn put_any_blocks(room: &mut Room, header: &Header)
    ensures { Takes (blocks_header_text header.now) room.old room.new }
{
    let blocks = header.blocks.as_slice();
    if header.version == 2 {
        put_count(room, blocks);
    } else {
        put_first(room, blocks);
    }
}

// The header of version 1: the cut of the first block, or that there is none.
fn put_first(room: &mut Room, blocks: &[Block])
    ensures { Takes (version_line ++ cut_text (first_cut blocks.now)) room.old room.new }
{
    room.put(b"joined 1\n");
    if blocks.is_empty() {
        room.put(b"none\n");
    } else {
        put_cut(room, &blocks[0].cut);
    }
}

// The header of version 2: the number of blocks, and the blocks.
fn put_count(room: &mut Room, blocks: &[Block])
    ensures { Takes (second_line ++ count_text blocks.now) room.old room.new }
{
    room.put(b"joined 2\ncuts ");
    room.put_number(blocks.len() as u128);
    room.put(b"\n");
    put_blocks(room, blocks);
}

// Blocks, each with its line and those of its pairs.
fn put_blocks(room: &mut Room, blocks: &[Block])
    ensures { Takes (blocks_text blocks.now) room.old room.new }
{
    for block in blocks {
        put_head(room, block);
        put_pairs(room, block.cut.pairs.as_slice());
    }
}

// The line of a block.
fn put_head(room: &mut Room, block: &Block)
    ensures { Takes (block_head_text block.now ++ newline ∷ []) room.old room.new }
{
    room.put(b"replace ");
    room.put_number(u128::from(block.cut.lo));
    room.put(b" ");
    room.put_number(block.cut.pairs.as_slice().len() as u128);
    room.put(carry(block.carry));
    room.put(b"\n");
}

// What stands after the numbers of a block whose last carry replaces a column too.
fn carry(carry: bool) -> &'static [u8]
    ensures { result.now ≡ carry_text carry }
{
    if carry { b" carry" } else { b"" }
}

// The line of a cut, and those of its pairs.
fn put_cut(room: &mut Room, cut: &Cut)
    ensures { Takes (cut_text (Some cut.now)) room.old room.new }
{
    let pairs = cut.pairs.as_slice();
    room.put(b"replace ");
    put_two(room, u128::from(cut.lo), pairs.len() as u128);
    put_pairs(room, pairs);
}

// Pairs, each in a line.
fn put_pairs(room: &mut Room, pairs: &[(Lit, Lit)])
    ensures { Takes (pairs_text pairs.now) room.old room.new }
{
    for pair in pairs {
        put_two(room, u128::from(pair.0.0), u128::from(pair.1.0));
    }
}

// Two numbers with a space between them, and a line feed.
fn put_two(room: &mut Room, one: u128, two: u128)
    ensures { Takes (two_text one two ++ newline ∷ []) room.old room.new }
{
    room.put_number(one);
    room.put(b" ");
    room.put_number(two);
    room.put(b"\n");
}

// Lines, each with its line feed.
fn put_lines(room: &mut Room, lines: &[Line])
    ensures { Takes (clause_lines_text lines.now) room.old room.new }
{
    for line in lines {
        put_line(room, line);
    }
}

// A line and its line feed.
fn put_line(room: &mut Room, line: &Line)
    ensures { Takes (clause_line_text line.now ++ newline ∷ []) room.old room.new }
{
    match line {
        Line::Add(clause) => put_clause(room, clause),
        Line::Delete(clause) => {
            room.put(b"d ");
            put_clause(room, clause);
        }
    }
}

// A clause and a line feed.
fn put_clause(room: &mut Room, clause: &Clause)
    ensures { Takes (clause_text clause.now ++ newline ∷ []) room.old room.new }
{
    put_literals(room, clause.lits());
    room.put(b"0\n");
}

// Literals, each with a space after it.
fn put_literals(room: &mut Room, literals: &[i32])
    ensures { Takes (literals_text literals.now []) room.old room.new }
{
    for &literal in literals {
        put_literal(room, literal);
    }
}

// A literal and a space.
fn put_literal(room: &mut Room, literal: i32)
    ensures { Takes (signed_decimal literal ++ space ∷ []) room.old room.new }
{
    room.put(sign(literal));
    room.put_number(u128::from(literal.unsigned_abs()));
    room.put(b" ");
}

// What stands before a literal's variable.
fn sign(literal: i32) -> &'static [u8]
    ensures { result.now ≡ literal_sign literal }
{
    if literal < 0 { b"-" } else { b"" }
}
