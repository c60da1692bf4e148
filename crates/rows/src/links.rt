// Links: the points where they end, noted as bits.
ghost use Rattle.std.specs.Prelude.{◌≡◌, ◌≤◌, [], ◌∷◌, ◌++◌};
ghost use Rattle.format.specs.Record.{Net, kind, widths_of};
ghost use Rattle.refusals.specs.Rows.{row6};
ghost use Rattle.rows.specs.Noted.{PointsNoted, EndsNamed};

use crate::table;
use records::fields::is_ordinary;
use widths::Widths;

// The link r ends at a port not ordinary or at a point already linked, or twice at one point, where the linked points are noted.
pub fn is_misplaced(points: &[u8; 32], w: Widths, r: &[u8; 24]) -> bool
    requires { (kind r.now ≡ 2) × EndsNamed r.now × (w.p ≤ 4) }
    ensures { (before : Net) → w ≡ widths_of before → PointsNoted before points.now → result ≡ row6 before r.now }
{
    !is_ordinary(w, r[2])
        || !is_ordinary(w, r[4])
        || table::has(points, r[1], r[2])
        || table::has(points, r[3], r[4])
        || (r[1], r[2]) == (r[3], r[4])
}

// Notes the points where the link r ends.
#[tactic(auto, using(crate::specs::Laws::Noted::points_link))]
pub fn note_ends(points: &mut [u8; 32], r: &[u8; 24])
    requires { (kind r.now ≡ 2) × EndsNamed r.now }
    ensures { (before : Net) → PointsNoted before points.old → PointsNoted (before ++ (r.now ∷ [])) points.new }
{
    table::set(points, r[1], r[2]);
    table::set(points, r[3], r[4]);
}
