// What links carry, and where they end.
#![tactic(auto)]

ghost use Rattle.std.specs.Prelude.{◌≡◌, true, [], ◌∷◌, ◌+◌, ◌*◌, ◌^◌, ◌<◌, ◌≤◌, length, get_or};
ghost use Rattle.planes.specs.Plane.{bit, plane_size};
ghost use Rattle.planes.specs.Lines.{BitSet};
ghost use Rattle.format.specs.Record.{Rec, records, of_kind};
ghost use Rattle.format.specs.Fields.{point_good};
ghost use Rattle.format.specs.State.{state};
ghost use Rattle.widths.specs.Widths.{within_limits, line_bytes};
ghost use Rattle.onestep.specs.Step.{across};
ghost use Rattle.planes.specs.Adds.{Adds};
ghost use Rattle.links.specs.Carried.{one_way, link_of, AreEnds, pair, pairs, crosses, point, LinkedPoints};

use scan::network::Network;
use states::{Frame, join, values};
use widths::Widths;

// A port of a switch.
#[derive(Clone, Copy)]
pub struct Point {
    pub switch: u8,
    pub port: u8,
}

impl Point {
    // The number of the point.
    #[tactic(auto, using(widths::specs::Laws::Limits::limits))]
    fn number(self, w: Widths) -> usize
        requires { within_limits w ≡ true }
        ensures { result ≡ point w self.switch self.port }
    {
        join(usize::from(self.switch), w.p, self.port)
    }

    // A frame with this header at the point.
    fn frame(self, header: u8) -> Frame
        ensures { result ≡ record { switch = self.switch; port = self.port; header = header } }
    {
        Frame {
            switch: self.switch,
            port: self.port,
            header,
        }
    }
}

// The two ends of a link.
#[derive(Clone, Copy)]
pub struct Link {
    pub one: Point,
    pub other: Point,
}

impl Link {
    // The ends of the link at place i of a network.
    fn at(net: &Network, i: usize) -> Self
        requires { (1 ≤ i) × (i < net.now.layout.misses) }
        ensures is { result ≡ link_of (get_or (records net.now.n net.now.store.now) i []) }
        ensures points { AreEnds net.now.layout.widths result }
    {
        let link = net.record(i);
        Link {
            one: Point {
                switch: link[1],
                port: link[2],
            },
            other: Point {
                switch: link[3],
                port: link[4],
            },
        }
    }
}

// The bit of a plane that a frame with this header needs to cross from one point to another.
#[tactic(auto, using(widths::specs::Laws::Limits::limits))]
fn crossing(w: Widths, from: Point, to: Point, header: u8) -> usize
    requires limits { within_limits w ≡ true }
    requires points { (point_good w from.switch from.port ≡ true) × (point_good w to.switch to.port ≡ true) × (header < 2 ^ w.h) }
    ensures is { result ≡ pair w (state w 1 from.switch from.port header) (state w 0 to.switch to.port header) }
    ensures within { result < plane_size (line_bytes w) * 8 }
{
    let departs = from.frame(header).departing(w);
    let arrives = to.frame(header).arriving(w);
    departs * w.states() + arrives
}

// Carries the frames of every header from one point to another.
#[tactic(auto, using(widths::specs::Laws::Limits::limits))]
fn carry(work: &mut [u8], base: usize, w: Widths, from: Point, to: Point)
    requires plane_room { (within_limits w ≡ true) × (base + plane_size (line_bytes w) ≤ length work.old) }
    requires points { (point_good w from.switch from.port ≡ true) × (point_good w to.switch to.port ≡ true) }
    ensures { Adds (pairs w (crosses w (one_way from.switch from.port to.switch to.port))) base (plane_size (line_bytes w)) work.old work.new }
{
    for header in 0..values(w.h) {
        planes::set_at(work, base, crossing(w, from, to, header));
    }
}

// Carries frames over a link, both ways.
fn follow(work: &mut [u8], base: usize, w: Widths, link: Link)
    requires plane_room { (within_limits w ≡ true) × (base + plane_size (line_bytes w) ≤ length work.old) }
    requires points { AreEnds w link }
    ensures { (l : Rec) → link ≡ link_of l → Adds (pairs w (crosses w (λ sw p. across sw p (l ∷ [])))) base (plane_size (line_bytes w)) work.old work.new }
{
    carry(work, base, w, link.one, link.other);
    carry(work, base, w, link.other, link.one);
}

// Carries frames over every link, in the plane at byte base.
pub fn cross(work: &mut [u8], base: usize, net: &Network)
    requires { base + plane_size (line_bytes net.now.layout.widths) ≤ length work.old }
    ensures { Adds (pairs net.now.layout.widths (crosses net.now.layout.widths (λ sw p. across sw p (of_kind 2 (records net.now.n net.now.store.now))))) base (plane_size (line_bytes net.now.layout.widths)) work.old work.new }
{
    for i in 1..net.layout.misses {
        follow(work, base, net.layout.widths, Link::at(net, i));
    }
}

// A set of points, by their numbers.
#[derive(Clone, Copy)]
pub struct Points {
    pub bits: [u8; 32],
}

impl Points {
    // Puts a point into the set.
    fn insert(&mut self, w: Widths, at: Point)
        requires { (within_limits w ≡ true) × (point_good w at.switch at.port ≡ true) }
        ensures { BitSet (point w at.switch at.port) self.old.bits self.new.bits }
    {
        planes::set_bit(&mut self.bits, at.number(w));
    }

    // The point is in the set.
    pub fn contains(&self, w: Widths, at: Point) -> bool
        requires { (within_limits w ≡ true) × (point_good w at.switch at.port ≡ true) }
        ensures { result ≡ bit self.now.bits (point w at.switch at.port) }
    {
        planes::get_bit(&self.bits, at.number(w))
    }
}

// The points where links end.
pub fn linked_points(net: &Network) -> Points
    ensures { LinkedPoints (records net.now.n net.now.store.now) net.now.layout.widths result }
{
    let w = net.layout.widths;
    let mut points = Points { bits: [0; 32] };
    for i in 1..net.layout.misses {
        let link = Link::at(net, i);
        points.insert(w, link.one);
        points.insert(w, link.other);
    }
    points
}
