// Laws of serial values, and worked examples.
ghost use Rattle.tenant_model.specs.Serial.{FollowsItsTurn, NeedsInstructions, TakesInstructions};
ghost use Rattle.tenant_model.specs.SerialWorked.{FibGives8, FibGives8With172, FibGivesNoneWith171, ChainGives7, RegionGives7, ZeroDivisorGivesNone, UnwaitedGivesNone, SpinGivesNone, RemHasTheSignOfTheDividend, BitsAreOfTwosComplement, ShiftsTakeSixBits, ShiftRightKeepsTheSign, ComparisonsGive1Or0};

/// The serial values of the worked examples, by the definitions alone. It does nothing: its contract
/// is the law.
pub fn serial_examples()
    ensures fib_gives_8 { FibGives8 }
    ensures fib_gives_8_with_172 { FibGives8With172 }
    ensures fib_gives_none_with_171 { FibGivesNoneWith171 }
    ensures chain_gives_7 { ChainGives7 }
    ensures region_gives_7 { RegionGives7 }
    ensures zero_divisor_gives_none { ZeroDivisorGivesNone }
    ensures unwaited_gives_none { UnwaitedGivesNone }
    ensures spin_gives_none { SpinGivesNone }
    ensures rem_has_the_sign_of_the_dividend { RemHasTheSignOfTheDividend }
    ensures bits_are_of_twos_complement { BitsAreOfTwosComplement }
    ensures shifts_take_six_bits { ShiftsTakeSixBits }
    ensures shift_right_keeps_the_sign { ShiftRightKeepsTheSign }
    ensures comparisons_give_1_or_0 { ComparisonsGive1Or0 }
{}

/// The rule that determines serial values. It does nothing: its contract is the law.
pub fn serial_rule()
    ensures follows_its_turn { FollowsItsTurn }
    ensures needs_instructions { NeedsInstructions }
    ensures takes_instructions { TakesInstructions }
{}
