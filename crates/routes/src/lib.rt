// The routes: a prefix, its class word, the set of its next hops and their costs, a row for each, in the order in which they were set.
#![tactic(auto)]

ghost use Rattle.std.specs.Prelude.{◌≡◌, List, [], map, min, ℕ, ◌≤◌, ◌<◌, length, get_or, MatchOption};
ghost use Rattle.std.proofs.Math.Option.{none, some};
ghost use Rattle.laws.specs.Lists.{on_at, without};
ghost use Rattle.sizes.specs.Sizes.{most_faces, most_routes};
ghost use Rattle.faces.specs.Set.{has_face};
ghost use Rattle.records.specs.Class.{class_of};
ghost use Rattle.records.specs.Slots.{is_some, given};
ghost use Rattle.records.specs.Route.{route_of, with_hop, hop_at, cheapest_of};
ghost use Rattle.routes.specs.declared.Count.{Count};
ghost use Rattle.routes.specs.declared.Routes.{Routes};
ghost use Rattle.routes.specs.Places.View.{view, placed, found, Finds, count_of, route_row};
ghost use Rattle.routes.specs.Places.Parts.{table, known_routes};
ghost use Rattle.faces.specs.Found.{face_in};
ghost use Rattle.routes.specs.Places.Stays.{RowsStay};
ghost use Rattle.routes.specs.Places.Hop.{least_of};
ghost use Rattle.routes.specs.Operations.{Sets, longest_at, hops_of, class_word};

use faces::Walk;
use names::{is_prefix, same};
use rows::part;
use sizes::{FACES, NAME, ROUTES};
use wire::put_bytes;

// For each route the bytes of its prefix: "Name at most .. 255 bytes".
pub type Prefixes = [[u8; NAME]; ROUTES];

// A route: how many bytes its prefix has, its class word, and the set of the faces that are its next hops.
#[derive(Clone, Copy)]
pub struct Row {
    pub len: u64,
    pub class: u64,
    pub hops: u64,
}

// The rows of the routes ("Routes 32").
pub type Rows = [Row; ROUTES];

// For each route the cost of each face that is a next hop.
pub type Costs = [[u64; FACES]; ROUTES];

// How many routes there are. Nobody above reads its field.
#[derive(Clone, Copy)]
pub struct Count {
    count: usize,
}

// The routes, and how many there are.
#[derive(Clone, Copy)]
pub struct Routes {
    pub prefixes: Prefixes,
    pub rows: Rows,
    pub costs: Costs,
    pub count: Count,
}

// Routes that are lent to be read, in parts.
#[derive(Clone, Copy)]
pub struct Known<'a> {
    pub prefixes: &'a Prefixes,
    pub rows: &'a Rows,
    pub costs: &'a Costs,
    pub count: Count,
}

// Routes that are lent for one to be set: their costs stay.
#[derive(Drop)]
pub struct Setting<'a> {
    pub prefixes: &'a mut Prefixes,
    pub rows: &'a mut Rows,
    pub costs: &'a Costs,
    pub count: &'a mut Count,
}

// Routes that are lent for a hop to be added: their prefixes stay, and how many there are.
#[derive(Drop)]
pub struct Hopping<'a> {
    pub prefixes: &'a Prefixes,
    pub rows: &'a mut Rows,
    pub costs: &'a mut Costs,
    pub count: Count,
}

// Routes that are lent for hops to be dropped: their prefixes and costs stay, and how many there are.
#[derive(Drop)]
pub struct Dropping<'a> {
    pub prefixes: &'a Prefixes,
    pub rows: &'a mut Rows,
    pub costs: &'a Costs,
    pub count: Count,
}

// A route. Nobody above reads its field.
#[derive(Clone, Copy, Debug, PartialEq, Eq)]
pub struct Handle {
    at: usize,
}

impl Count {
    // No routes, whatever the memory holds.
    pub fn none() -> Count
        ensures no_routes { (t : Routes) → t.count ≡ result → view t ≡ [] }
        ensures counted { (t : Routes) → t.count ≡ result → count_of t ≡ 0 }
    {
        Count { count: 0 }
    }

    // How many routes there are: a count past the table's size is the size.
    fn cut(self) -> usize
        ensures { result ≡ min self.count most_routes }
    {
        self.count.min(ROUTES)
    }
}

// Puts a hop into a row and its costs, or changes its cost.
fn put_hop(row: &mut Row, costs: &mut [u64; FACES], face: usize, cost: u64)
    requires above { 1 ≤ face }
    requires within { face ≤ most_faces }
    ensures { (name : List ℕ) → route_row most_faces name row.new costs.new
        ≡ with_hop face (some cost) (route_row most_faces name row.old costs.old) }
{
    row.hops = faces::add(row.hops, face);
    costs[face - 1] = cost;
}

// Takes a hop out of a row.
fn take_hop(row: &mut Row, face: usize)
    ensures { (name costs : List ℕ) → route_row most_faces name row.new costs
        ≡ with_hop face none (route_row most_faces name row.old costs) }
{
    row.hops = faces::remove(row.hops, face);
}

// The face of the least cost among those of a set, the lowest of them.
fn least(set: u64, costs: &[u64; FACES]) -> Option<usize>
    ensures { face_in result ≡ given none (λ h. some h.face) (least_of most_faces (λ i. get_or costs.now i 0) set) }
{
    Walk::of(set).min_by_key(|face| costs[*face - 1])
}

// The row of a route, if there is one.
fn row_of(rows: &Rows, count: Count, route: Handle) -> Option<&Row>
    ensures { (p c : List (List ℕ)) → MatchOption result (found (table p rows.now c count) route ≡ none)
        (λ r. found (table p rows.now c count) route
        ≡ some (route_row most_faces (get_or p route.at []) r.now (get_or c route.at []))) }
{
    rows[..count.cut()].get(route.at)
}

// The route of a prefix, if it is known.
pub fn find(prefixes: &Prefixes, rows: &Rows, count: Count, prefix: &[u8]) -> Option<Handle>
    ensures { (c : List (List ℕ)) → Finds (table prefixes.now rows.now c count)
        (route_of prefix.now (view (table prefixes.now rows.now c count))) result }
{
    for i in 0..count.cut() {
        if same(prefix, part(&prefixes[i], rows[i].len)) {
            return Some(Handle { at: i });
        }
    }
    None
}

// Whether a handle stands for a route.
pub fn is_there(count: Count, route: Handle) -> bool
    ensures { (t : Routes) → t.count ≡ count → result ≡ is_some (found t route) }
{
    route.at < count.cut()
}

// Whether a face is a next hop of a route.
pub fn has_hop(rows: &Rows, count: Count, route: Handle, face: usize) -> bool
    ensures { (p c : List (List ℕ)) → result
        ≡ is_some (hop_at face (placed (table p rows.now c count) route) (view (table p rows.now c count))) }
{
    row_of(rows, count, route).is_some_and(|row| faces::has(row.hops, face))
}

// "Setting a route gives a prefix (empty allowed) and class; for a known prefix the hops stay." A 33rd route, or a prefix over
// 255 bytes, changes nothing. Whether the prefix is known or fits.
pub fn set(
    prefixes: &mut Prefixes,
    rows: &mut Rows,
    count: &mut Count,
    prefix: &[u8],
    class: u64,
) -> bool
    ensures sets { (c : List (List ℕ)) → Sets most_faces result (view (table prefixes.new rows.new c count.new)) prefix.now
        (class_of class) (view (table prefixes.old rows.old c count.old)) }
    ensures counted { (c : List (List ℕ)) → count_of (table prefixes.new rows.new c count.new)
        ≡ length (view (table prefixes.new rows.new c count.new)) }
{
    let known = find(prefixes, rows, *count, prefix);
    let n = count.cut();
    count.count = n;
    if let Some(route) = known {
        rows[route.at].class = class;
        true
    } else if prefix.len() <= NAME && n < ROUTES {
        put_bytes(&mut prefixes[n], 0, prefix);
        // No face is in the set of a new route, so that its costs may be anything.
        rows[n] = Row {
            len: prefix.len() as u64,
            class,
            hops: 0,
        };
        count.count = n + 1;
        true
    } else {
        false
    }
}

// "Adding a known hop changes its cost." A number that is no face changes nothing.
pub fn add_hop(
    rows: &mut Rows,
    costs: &mut Costs,
    count: Count,
    route: Handle,
    face: usize,
    cost: u64,
)
    ensures { (p : List (List ℕ)) → view (table p rows.new costs.new count)
        ≡ on_at (placed (table p rows.old costs.old count) route) (with_hop face (some cost)) (view (table p rows.old costs.old count)) }
{
    let i = route.at;
    if i < count.cut() && 0 < face && face <= FACES {
        put_hop(&mut rows[i], &mut costs[i], face, cost);
    }
}

// Drops a hop; "a route without hops stays, class and all".
pub fn drop_hop(rows: &mut Rows, count: Count, route: Handle, face: usize)
    ensures { (p c : List (List ℕ)) → view (table p rows.new c count)
        ≡ on_at (placed (table p rows.old c count) route) (with_hop face none) (view (table p rows.old c count)) }
{
    if route.at < count.cut() {
        take_hop(&mut rows[route.at], face);
    }
}

// A face closes: "Its next hops go too".
pub fn drop_face(rows: &mut Rows, face: usize)
    ensures { (p c : List (List ℕ)) (n : Count) → view (table p rows.new c n)
        ≡ map (with_hop face none) (view (table p rows.old c n)) }
{
    for row in rows {
        take_hop(row, face);
    }
}

impl Routes {
    // A table with no routes.
    pub fn new() -> Routes
        ensures no_routes { view result ≡ [] }
        ensures counted { count_of result ≡ 0 }
    {
        let row = Row {
            len: 0,
            class: 0,
            hops: 0,
        };
        Routes {
            prefixes: [[0; NAME]; ROUTES],
            rows: [row; ROUTES],
            costs: [[0; FACES]; ROUTES],
            count: Count { count: 0 },
        }
    }

    // No routes, whatever the memory holds.
    pub fn clear(&mut self)
        ensures no_routes { view self.new ≡ [] }
        ensures counted { count_of self.new ≡ 0 }
        ensures rows { RowsStay self.old self.new }
    {
        self.count.count = 0;
    }

    // Takes a route out; a handle that stands for none changes nothing.
    pub fn remove(&mut self, route: Handle)
        ensures gone { view self.new ≡ without (placed self.old route) (view self.old) }
        ensures counted { count_of self.new ≡ length (view self.new) }
    {
        let n = self.count.cut();
        self.count.count = n;
        let i = route.at;
        if i < n {
            self.prefixes.copy_within(i + 1..n, i);
            self.rows.copy_within(i + 1..n, i);
            self.costs.copy_within(i + 1..n, i);
            self.count.count = n - 1;
        }
    }
}

impl Known<'_> {
    // "the longest matching route" for a name, if one matches.
    pub fn longest(self, name: &[u8]) -> Option<Handle>
        ensures { let t = known_routes self.entry in Finds t (longest_at name.now (view t)) result }
    {
        // From the last route to the first: what was found so far gives way to a match that is no shorter.
        let mut best = None;
        let mut most = 0;
        for i in (0..self.count.cut()).rev() {
            let prefix = part(&self.prefixes[i], self.rows[i].len);
            let len = prefix.len();
            if most <= len && is_prefix(prefix, name) {
                best = Some(Handle { at: i });
                most = len;
            }
        }
        best
    }

    // The class word of a route; 0, which is no class, where there is none.
    pub fn class_of(self, route: Handle) -> u64
        ensures { result ≡ given 0 class_word (found (known_routes self.entry) route) }
    {
        row_of(self.rows, self.count, route).map_or(0, |row| row.class)
    }

    // The set of the next hops of a route.
    pub fn hops_of(self, route: Handle) -> u64
        ensures { result ≡ given 0 (hops_of most_faces) (found (known_routes self.entry) route) }
    {
        row_of(self.rows, self.count, route).map_or(0, |row| faces::members(row.hops))
    }

    // The cheapest next hop of a route that is in a set of faces, "ties to the lower face".
    pub fn cheapest(self, route: Handle, set: u64) -> Option<usize>
        ensures { face_in result ≡ given none (cheapest_of (has_face most_faces set)) (found (known_routes self.entry) route) }
    {
        let i = route.at;
        if i < self.count.cut() {
            least(faces::common(self.rows[i].hops, set), &self.costs[i])
        } else {
            None
        }
    }
}
