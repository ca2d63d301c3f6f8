// Sets of faces as bits of an unsigned number, and the open faces with scope and link type, by value.
//
// "a set whose size and lowest member are asked for constantly": face f is bit f - 1; ones give the size, trailing zeros the lowest face.
#![tactic(auto)]

ghost use Rattle.std.specs.Prelude.{◌≡◌, ◌&&◌, not};
ghost use Rattle.std.specs.Iterator.{at_most};
ghost use Rattle.std.proofs.Math.Option.{none, some};
ghost use Rattle.laws.specs.Pick.{pick};
ghost use Rattle.records.specs.Slots.{no_slots, set_slot};
ghost use Rattle.records.specs.Face.{is_face, is_open, is_local_face, is_peer, is_ad_hoc_face};
ghost use Rattle.sizes.specs.Sizes.{most_faces};
ghost use Rattle.faces.specs.Set.{has_face, with_face, minus_face, size_of, lowest_face, faces_where};
ghost use Rattle.faces.specs.Places.Gives.{Gives};
ghost use Rattle.faces.specs.Places.View.{view};
ghost use Rattle.faces.specs.Link.{face_with};

use sizes::FACES;

// "link type (point-to-point, multi-access, ad hoc)"
#[derive(Clone, Copy, Debug, PartialEq, Eq)]
pub enum Link {
    PointToPoint,
    MultiAccess,
    AdHoc,
}

// The open faces, and which of them are local, point-to-point and ad hoc, each a set.
#[derive(Clone, Copy)]
pub struct Faces {
    pub open: u64,
    pub local: u64,
    pub peer: u64,
    pub adhoc: u64,
}

// A walk over the faces of a set, the lowest first: the set that is left.
#[derive(Clone, Copy, Debug)]
pub struct Walk {
    left: u64,
}

// Whether a number is a face's.
#[tactic(auto, unfolding(records::specs::Face::is_face))]
fn is_face(face: usize) -> bool
    ensures { result ≡ is_face most_faces face }
{
    (1..=FACES).contains(&face)
}

// Whether a set has a face.
pub fn has(set: u64, face: usize) -> bool
    ensures { result ≡ has_face most_faces set face }
{
    is_face(face) && (set >> (face - 1)) % 2 == 1
}

// The set with a face more; a number that is no face changes nothing.
pub fn add(set: u64, face: usize) -> u64
    ensures { result ≡ with_face most_faces set face }
{
    if is_face(face) {
        set | 1 << (face - 1)
    } else {
        set
    }
}

// The set without a face; a number that is no face changes nothing.
pub fn remove(set: u64, face: usize) -> u64
    ensures { result ≡ minus_face most_faces set face }
{
    if has(set, face) {
        set - (1 << (face - 1))
    } else {
        set
    }
}

// The set with a face or without it.
#[tactic(auto, unfolding(laws::specs::Pick::pick))]
fn put(set: u64, face: usize, there: bool) -> u64
    ensures { result ≡ pick there (with_face most_faces set face) (minus_face most_faces set face) }
{
    if there {
        add(set, face)
    } else {
        remove(set, face)
    }
}

// How many faces a set has.
#[tactic(auto, unfolding(crate::specs::Set::size_of), using(crate::specs::Laws::Set::where_mod))]
pub fn size(set: u64) -> usize
    ensures { result ≡ size_of most_faces set }
{
    members(set).count_ones() as usize
}

// The lowest face of a set, one past the last face where it has none.
#[tactic(auto, unfolding(crate::specs::Set::lowest_face))]
pub fn lowest(set: u64) -> usize
    ensures { result ≡ lowest_face most_faces set }
{
    // The first digit that is no face's.
    let past = 1 << FACES;
    (set % past + past).trailing_zeros() as usize + 1
}

// The faces of a set, without the bits that are no face's.
pub fn members(set: u64) -> u64
    ensures { result ≡ faces_where most_faces (has_face most_faces set) }
{
    set % (1 << FACES)
}

// The faces that are in both sets.
pub fn common(a: u64, b: u64) -> u64
    ensures { result ≡ faces_where most_faces (λ f. has_face most_faces a f && has_face most_faces b f) }
{
    members(a & b)
}

// The faces of the first set that are not in the second.
pub fn less(a: u64, b: u64) -> u64
    ensures { result ≡ faces_where most_faces (λ f. has_face most_faces a f && not (has_face most_faces b f)) }
{
    members(a & !b)
}

impl Faces {
    // No face is open.
    pub fn none() -> Faces
        ensures { view result ≡ no_slots most_faces }
    {
        Faces {
            open: 0,
            local: 0,
            peer: 0,
            adhoc: 0,
        }
    }

    // Whether a face is open.
    #[tactic(auto, using(crate::specs::Laws::View::open_is))]
    pub fn is_open(self, face: usize) -> bool
        ensures { result ≡ is_open (view self) face }
    {
        has(self.open, face)
    }

    // Whether a face is open and local.
    #[tactic(auto, using(crate::specs::Laws::View::local_is))]
    pub fn is_local(self, face: usize) -> bool
        ensures { result ≡ is_local_face (view self) face }
    {
        has(self.open, face) && has(self.local, face)
    }

    // Whether a face is open and point-to-point.
    #[tactic(auto, using(crate::specs::Laws::View::peer_is))]
    pub fn is_peer(self, face: usize) -> bool
        ensures { result ≡ is_peer (view self) face }
    {
        has(self.open, face) && has(self.peer, face)
    }

    // Whether a face is open and ad hoc: a face that is both is point-to-point.
    #[tactic(auto, using(crate::specs::Laws::View::adhoc_is))]
    pub fn is_ad_hoc(self, face: usize) -> bool
        ensures { result ≡ is_ad_hoc_face (view self) face }
    {
        has(self.open, face) && !has(self.peer, face) && has(self.adhoc, face)
    }

    // The set of the open faces.
    pub fn all_open(self) -> u64
        ensures { result ≡ faces_where most_faces (is_open (view self)) }
    {
        members(self.open)
    }

    // The set of the faces that are open and local.
    pub fn all_local(self) -> u64
        ensures { result ≡ faces_where most_faces (is_local_face (view self)) }
    {
        common(self.open, self.local)
    }

    // The set of the faces that are open and point-to-point.
    pub fn all_peer(self) -> u64
        ensures { result ≡ faces_where most_faces (is_peer (view self)) }
    {
        common(self.open, self.peer)
    }

    // The set of the faces that are open and ad hoc.
    pub fn all_ad_hoc(self) -> u64
        ensures { result ≡ faces_where most_faces (is_ad_hoc_face (view self)) }
    {
        less(common(self.open, self.adhoc), self.peer)
    }

    // The faces with one opened, or opened anew; a number that is no face changes nothing.
    pub fn with_open(self, face: usize, local: bool, link: Link) -> Faces
        ensures { view result ≡ set_slot face (some (face_with local link)) (view self) }
    {
        Faces {
            open: add(self.open, face),
            local: put(self.local, face, local),
            peer: put(self.peer, face, link == Link::PointToPoint),
            adhoc: put(self.adhoc, face, link == Link::AdHoc),
        }
    }

    // The faces with one closed; a number that is no face changes nothing.
    pub fn with_closed(self, face: usize) -> Faces
        ensures { view result ≡ set_slot face none (view self) }
    {
        Faces {
            open: remove(self.open, face),
            ..self
        }
    }
}

impl Walk {
    // A walk over the faces of a set.
    pub fn of(set: u64) -> Walk
        ensures { result.left ≡ set }
    {
        Walk { left: set }
    }
}

impl Iterator for Walk {
    type Item = usize;

    ghost next_gives = { Gives most_faces };

    ghost remaining = { λ s. at_most s.left };

    // The lowest face that is left, which goes from the set.
    fn next(&mut self) -> Option<usize> {
        let face = lowest(self.left);
        if FACES < face {
            return None;
        }
        self.left = remove(self.left, face);
        Some(face)
    }
}
