// The store: Data in the order of their use, a packet and a row for each, the least recently stored or hit first.
#![tactic(auto)]

ghost use Rattle.std.specs.Prelude.{◌<◌, ◌≤◌, ◌≡◌, [], length, take, min, MatchOption, IfSome};
ghost use Rattle.laws.specs.Lists.{index_of, without};
ghost use Rattle.sizes.specs.Sizes.{most_packet, most_stored};
ghost use Rattle.records.specs.Slots.{given, is_some};
ghost use Rattle.records.specs.Stored.{serves, earlier, lookup};
ghost use Rattle.std.proofs.Math.Option.{some};
ghost use Rattle.store.specs.Places.View.{view, placed, found, count_of, data_of, stored_of, stored_at};
ghost use Rattle.store.specs.Places.Parts.{table};
ghost use Rattle.store.specs.declared.Store.{Store};
ghost use Rattle.store.specs.Operations.{Puts, Looks, recent};
ghost use Rattle.store.specs.Places.Put.{is_named, leaver};
ghost use Rattle.store.specs.Places.Stays.{RowsStay};
ghost use Rattle.store.specs.Places.Look.{answers, in_time, hit, hit_at};

use names::{compare, is_prefix, same};
use packethead::find_name;
use rows::part;
use sizes::{PACKET, STORED};

// The packets of the Data ("Packet at most 1,500 bytes", "stored Data 8").
pub type Packets = [[u8; PACKET]; STORED];

// A Data: how many bytes its packet has, when it was stored, and its freshness as it counts.
#[derive(Clone, Copy)]
pub struct Row {
    pub len: u64,
    pub time: u64,
    pub freshness: u64,
}

// The rows of the Data.
pub type Rows = [Row; STORED];

// The Data, and how many there are: a count of 0 empties it. Nobody above reads its fields but to lend them.
#[derive(Clone, Copy)]
pub struct Store {
    pub packets: Packets,
    pub rows: Rows,
    pub count: usize,
}

// A Data; once that has gone, another one or none. Nobody above reads its field.
#[derive(Clone, Copy, Debug, PartialEq, Eq)]
pub struct Handle {
    at: usize,
}

impl Row {
    // The bytes of the packet, no more than it has room for.
    fn bytes<'a>(&self, packet: &'a [u8; PACKET]) -> &'a [u8]
        ensures bytes { result.now ≡ (stored_of packet.now self.now).bytes }
        ensures fits { length result.now ≤ most_packet }
    {
        part(packet, self.len)
    }

    // The name of the Data, where it stands in the packet.
    fn name<'a>(&self, packet: &'a [u8; PACKET]) -> &'a [u8]
        ensures { result.now ≡ (stored_of packet.now self.now).name }
    {
        find_name(self.bytes(packet))
    }

    // Whether a lookup may take the Data by its time: "with MustBeFresh only while now < storing time + freshness", with no sum that could
    // be too large.
    fn is_in_time(&self, fresh: bool, time: u64) -> bool
        ensures { result ≡ in_time time fresh self.now }
    {
        !fresh || time < self.time || time - self.time < self.freshness
    }

    // Whether a lookup may take the Data by its name: "an equal name, with CanBePrefix also any name extending it".
    fn is_named(&self, packet: &[u8; PACKET], name: &[u8], prefix: bool) -> bool
        ensures { result ≡ answers name.now prefix (stored_of packet.now self.now).name }
    {
        if prefix {
            is_prefix(name, self.name(packet))
        } else {
            same(name, self.name(packet))
        }
    }

    // Whether a lookup may take the Data.
    fn is_served(
        &self,
        packet: &[u8; PACKET],
        name: &[u8],
        prefix: bool,
        fresh: bool,
        time: u64,
    ) -> bool
        ensures { result ≡ serves time name.now prefix fresh (stored_of packet.now self.now) }
    {
        self.is_in_time(fresh, time) && self.is_named(packet, name, prefix)
    }

    // A Data into the row and its packet, which has room for the bytes.
    fn fill(&mut self, packet: &mut [u8; PACKET], bytes: &[u8], time: u64, freshness: u64)
        requires { length bytes.now ≤ most_packet }
        ensures { stored_of packet.new self.new ≡ data_of bytes.now time freshness }
    {
        packet[..bytes.len()].copy_from_slice(bytes);
        self.len = bytes.len() as u64;
        self.time = time;
        self.freshness = freshness;
    }
}

// The rows that count.
fn counted(rows: &Rows, count: usize) -> &[Row]
    ensures { result.now ≡ take (min count most_stored) rows.now }
{
    &rows[..count.min(STORED)]
}

// The bytes of a Data, where they stand; none where there is no Data. Of the store the packets alone are lent as long as the bytes are.
pub fn bytes_of<'a>(packets: &'a Packets, rows: &Rows, count: usize, taken: Handle) -> &'a [u8]
    ensures bytes { result.now ≡ given [] (λ d. d.bytes) (found (table packets.now rows.now count) taken) }
    ensures fits { length result.now ≤ most_packet }
{
    match counted(rows, count).get(taken.at) {
        Some(row) => row.bytes(&packets[taken.at]),
        None => &[],
    }
}

// How many Data a store without any counts, whatever its packets and rows hold.
pub fn none() -> usize
    ensures no_data { (s : Store) → s.count ≡ result → view s ≡ [] }
    ensures counted { (s : Store) → s.count ≡ result → count_of s ≡ 0 }
{
    // No Data is counted.
    0
}

impl Store {
    // A store with no Data.
    pub fn new() -> Store
        ensures no_data { view result ≡ [] }
        ensures counted { count_of result ≡ 0 }
    {
        let row = Row {
            len: 0,
            time: 0,
            freshness: 0,
        };
        Store {
            packets: [[0; PACKET]; STORED],
            rows: [row; STORED],
            count: 0,
        }
    }

    // No Data, whatever the memory holds.
    pub fn clear(&mut self)
        ensures no_data { view self.new ≡ [] }
        ensures counted { count_of self.new ≡ 0 }
        ensures rows { RowsStay self.old self.new }
    {
        self.count = 0;
    }

    // How many Data there are: a count past the store's size is the size.
    fn len(&self) -> usize
        ensures { result ≡ min self.now.count most_stored }
    {
        self.count.min(STORED)
    }

    // The rows of the Data.
    fn data(&self) -> &[Row]
        ensures { result.now ≡ take (min self.now.count most_stored) self.now.rows }
    {
        counted(&self.rows, self.count)
    }

    // Whether a handle stands for a Data.
    pub fn is_there(&self, taken: Handle) -> bool
        ensures { result ≡ is_some (found self.now taken) }
    {
        taken.at < self.len()
    }

    // The place of the Data with a name, if there is one.
    fn find(&self, name: &[u8]) -> Option<usize>
        ensures { MatchOption result (index_of (is_named name.now) (view self.now) ≡ length (view self.now))
            (λ i. (i < length (view self.now)) × (i ≡ index_of (is_named name.now) (view self.now))) }
    {
        self.packets
            .iter()
            .zip(self.data())
            .position(|(packet, row)| same(name, row.name(packet)))
    }

    // The place of the Data that gives way to a new one of a name: the equal name's, else, in a full store, that of the least recent. None
    // gives way to a new one of another name in a store that is not full.
    fn leaving(&self, name: &[u8]) -> Option<usize>
        ensures { MatchOption result
            ((length (view self.now) < most_stored) × (leaver name.now (view self.now) ≡ length (view self.now)))
            (λ i. (i < length (view self.now)) × (i ≡ leaver name.now (view self.now))) }
    {
        match self.find(name) {
            Some(i) => Some(i),
            None if self.count < STORED => None,
            None => Some(0),
        }
    }

    // The Data that gives way to a new one of a name goes, if there is one. The store then has room for one more.
    fn make_room(&mut self, name: &[u8])
        ensures gone { view self.new ≡ without (leaver name.now (view self.old)) (view self.old) }
        ensures room { length (view self.new) < most_stored }
        ensures counted { count_of self.new ≡ length (view self.new) }
    {
        self.count = self.len();
        if let Some(at) = self.leaving(name) {
            // It takes the last place, which then counts no more.
            self.touch(Handle { at });
            self.count -= 1;
        }
    }

    // "The store replaces an equal name, else, when full, evicts the least recently stored or hit." Bytes that are no packet's size change
    // nothing. Whether they are.
    pub fn put(&mut self, bytes: &[u8], time: u64, freshness: u64) -> bool
        ensures puts { Puts result (view self.new) (data_of bytes.now time freshness) (view self.old) }
        ensures counted { count_of self.new ≡ length (view self.new) }
    {
        if PACKET < bytes.len() {
            self.count = self.len();
            return false;
        }
        self.make_room(find_name(bytes));
        self.rows[self.count].fill(&mut self.packets[self.count], bytes, time, freshness);
        self.count += 1;
        true
    }

    // The name of the Data at a place.
    fn name_at(&self, at: usize) -> &[u8]
        requires { at < most_stored }
        ensures { result.now ≡ (stored_at self.now at).name }
    {
        self.rows[at].name(&self.packets[at])
    }

    // Of a Data and the best of those after it, the place of the first in canonical order.
    fn earlier_of(&self, i: usize, best: Option<usize>) -> usize
        requires at_row { i < most_stored }
        requires best_row { IfSome best (λ b. b < most_stored) }
        ensures earlier { some (hit self.now result) ≡ earlier (hit self.now i) (hit_at self.now best) }
        ensures within { result < most_stored }
    {
        match best {
            Some(b) if compare(self.name_at(b), self.name_at(i)).is_lt() => b,
            _ => i,
        }
    }

    // The Data that a lookup takes, if it takes one: "of those it takes the first in canonical order".
    pub fn look(&self, name: &[u8], prefix: bool, fresh: bool, time: u64) -> Option<Handle>
        ensures { Looks result (placed self.now) (view self.now) (lookup time name.now prefix fresh (view self.now)) }
    {
        let mut best = None;
        for i in (0..self.len()).rev() {
            if self.rows[i].is_served(&self.packets[i], name, prefix, fresh, time) {
                best = Some(self.earlier_of(i, best));
            }
        }
        best.map(|at| Handle { at })
    }

    // A hit becomes the most recent; a handle that stands for no Data changes nothing.
    pub fn touch(&mut self, taken: Handle)
        ensures touched { view self.new ≡ recent (placed self.old taken) (view self.old) }
        ensures counted { count_of self.new ≡ length (view self.new) }
    {
        self.count = self.len();
        if taken.at < self.count {
            self.packets[taken.at..self.count].rotate_left(1);
            self.rows[taken.at..self.count].rotate_left(1);
        }
    }
}
