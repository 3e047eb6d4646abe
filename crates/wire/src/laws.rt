ghost use Rattle.wire.specs.Spellings.{AreToldApart};
ghost use Rattle.wire.specs.Readers.{FindFields};

/// No two fields of one kind are spelled alike, and no spelling begins another. A record is spelled
/// as a byte string is.
pub fn fields_are_told_apart()
    ensures { AreToldApart }
{}

/// Where a field is spelled, its reader finds it, and the place behind it.
pub fn readers_find_what_is_spelled()
    ensures { FindFields }
{}
