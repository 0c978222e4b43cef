//! Laws over the answers.
ghost use Rattle.std.specs.Prelude.{◌≡◌, map};
ghost use Rattle.tor_spec.specs.valid.Conditions.{conditions};
ghost use Rattle.tor_c.specs.Numbers.{condition_number, numbers_of_conditions};
ghost use Rattle.tor_c.specs.declared.TheConstants.{ACCEPTED, BAD_LENGTH, BAD_PIECE_LENGTH, MEMORY, NO_ROOM};
ghost use Rattle.tor_c.specs.declared.TheConstants.{NOT_PROVED};

/// The numbers of the answers, as the header for C has them.
pub fn numbers_of_answers()
    ensures accepted { ACCEPTED ≡ 0 }
    ensures memory { MEMORY ≡ 24 }
    ensures no_room { NO_ROOM ≡ 100 }
    ensures not_proved { NOT_PROVED ≡ 101 }
    ensures bad_length { BAD_LENGTH ≡ 102 }
    ensures bad_piece_length { BAD_PIECE_LENGTH ≡ 103 }
{}

/// The number of a condition is greater than those of the conditions that are looked for before it. So the first that
/// holds has the least number of all that hold.
pub fn numbers_of_refusals()
    ensures { map condition_number conditions ≡ numbers_of_conditions }
{}
