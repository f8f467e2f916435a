//! The law of substitution.
ghost use Rattle.cr_base.specs.Substitution.{ShiftsToBytes};

/// In a file whose old name was replaced at rising places, each byte that isn't replaced stands where
/// the shift says, and at each shifted place stands the new name. It does nothing: its contract is the law.
pub fn shifted_places_are_where_the_bytes_went()
    ensures { ShiftsToBytes }
{}
