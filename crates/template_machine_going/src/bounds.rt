//! Laws of code under bounds on its instructions: what it has done under one it has done under every greater one.

ghost use Rattle.template_machine_going.specs.Bounds.{BeginningsStay, EndsStay, UncutStays};

/// Code that came to its end under a bound does the same under every greater one.
pub fn ends_stay<S>()
    ensures { EndsStay S }
{}

/// Code whose bound did not run out does the same under every greater one.
pub fn uncut_stays<S>()
    ensures { UncutStays S }
{}

/// What code has left under a bound it leaves first under every greater one.
pub fn beginnings_stay<S>()
    ensures { BeginningsStay S }
{}
