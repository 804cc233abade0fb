//! The laws of what is built in.

ghost use Rattle.dy_machine_laws.specs.Machines.{MachinesAreOrderly, MachinesAreThrifty};
ghost use Rattle.dy_machine_laws.specs.Machines.{ValidProgramsEnd};

/// What holds of the machine of every program.
pub fn machine_laws()
    // What is built in fits the program.
    ensures orderly { MachinesAreOrderly }
    // It adds no units.
    ensures thrifty { MachinesAreThrifty }
    // So each run ends in time, where the code may run.
    ensures ends { ValidProgramsEnd }
{}
