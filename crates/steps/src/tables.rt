// What is worked out of a network once, before any frame.
ghost use Rattle.std.specs.Prelude.{◌≡◌};

use choice::rules::Rules;
use groups::buckets::Groups;

// The rules and the groups of one network.
#[derive(Drop)]
pub struct Tables<'s, 't> {
    pub rules: Rules<'s, 't>,
    pub groups: Groups<'s, 't>,
    pub ghost same: { groups.net ≡ rules.net },
}
