ghost use Rattle.command_inputs.specs.OneWay.{AreReadOneWay};
ghost use Rattle.command_inputs.specs.SomeWay.{AreReadSomeWay};

/// No file of an input spells two things, has two faults, or spells a thing and has a fault.
pub fn one_way()
    ensures { AreReadOneWay }
{
    state_file::law::one_way();
    workload::law::one_way();
    trace_format::balance::fault_is_one();
    trace_format::decoding::reading_is_exact();
    report_format::decoding::reading_is_exact();
    schedule_format::decoding::reading_is_exact();
}

/// Each file of an input spells a thing or has a fault.
pub fn some_way()
    ensures { AreReadSomeWay }
{}
