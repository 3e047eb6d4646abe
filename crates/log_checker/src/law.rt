ghost use Rattle.log_checker.specs.Finds.{MapFindsAll};

/// Where nothing is wrong with the counts and the logs of a report, its map takes the operations of
/// the requests one-to-one onto the entries of the logs.
pub fn map_finds_all()
    ensures { MapFindsAll }
{}
