// A node with its rank, as a record has it: a map, and then the fields that are not zero.
ghost use Rattle.std.specs.Prelude.{◌≡◌};
ghost use Rattle.records.specs.Claims.{map_of, node_bytes};
ghost use Rattle.records.specs.NodeBytes.{length_node};
ghost use Rattle.records.specs.Parsing.{any_node, given, parts};

use crate::coded::Coded;
use crate::label::{high, joined, low};
use crate::reader::Reader;
use crate::writer::Writer;
use graph::node::{Node, Ranked};
use graph::sets::has;

// The bits in the map of a node: places in a set of bits, which an enum's variants would only be turned back into.
const LOW_LINES: u8 = 0;

const HIGH_LINES: u8 = 1;

const MARKS: u8 = 2;

const HISTORY: u8 = 3;

const RANK: u8 = 4;

// Every map of a node is below this.
const MAPS: u8 = 32;

impl Coded for Ranked {
    ghost parsed = { any_node };

    ghost written = { node_bytes };

    ghost most = { 23 };

    ghost short = { length_node };

    fn read(reader: &mut Reader) -> Option<Ranked> {
        let map = reader.byte()?;
        if map < MAPS {
            parts(reader, map.into())
        } else {
            None
        }
    }

    fn write(self, writer: &mut Writer) {
        let low = low(self.node.label);
        let high = high(self.node.label);
        writer.byte(map_of(low, high, self.node.marks, self.node.history, self.rank));
        writer.field(low);
        writer.field(high);
        writer.field(self.node.marks);
        writer.field(self.node.history);
        writer.field(self.rank);
    }
}

// The node of the fields that the map says are there.
fn parts(reader: &mut Reader, map: u16) -> Option<Ranked>
    ensures { parts map reader.old.rest.now ≡ given result reader.new.rest.now }
{
    let low: u64 = reader.field(has(map, LOW_LINES))?;
    let high: u64 = reader.field(has(map, HIGH_LINES))?;
    let marks: u16 = reader.field(has(map, MARKS))?;
    let history: u16 = reader.field(has(map, HISTORY))?;
    let rank: u16 = reader.field(has(map, RANK))?;
    let node = Node {
        label: joined(low, high),
        marks,
        history,
    };
    Some(Ranked { node, rank })
}

// The map of a node with these fields.
fn map_of(low: u64, high: u64, marks: u16, history: u16, rank: u16) -> u8
    ensures { result ≡ map_of low high marks history rank }
{
    (u8::from(low != 0) << LOW_LINES)
        + (u8::from(high != 0) << HIGH_LINES)
        + (u8::from(marks != 0) << MARKS)
        + (u8::from(history != 0) << HISTORY)
        + (u8::from(rank != 0) << RANK)
}
