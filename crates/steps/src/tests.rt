ghost use Rattle.std.specs.Prelude.{◌≡◌, ◌<◌};

use super::*;
use std::marker::Brand;
use std::mem::size_of;

fn two_ticks<L: Ledger>(blank: Blank) -> usize
    requires ledger { blank.name ≡ L.name }
    requires parts { blank.parts ≡ L.parts }
    requires some { 0 < blank.parts }
{
    let mut steps = Steps::<L>::new(blank);
    steps.tick();
    steps.tick();
    size_of::<Steps<L>>()
}

#[test]
fn takes_no_bytes(rt: HostRuntime) {
    assert_eq!(rt; two_ticks::<Brand>(rt.blank()), 0);
}
