ghost use Rattle.std.specs.Prelude.{◌≡◌};
ghost use Rattle.command_inputs.specs.Roles.{role_name};

use std::fmt;

/// What an input is to a command.
#[derive(Clone, Copy, PartialEq, Eq)]
pub enum Role {
    Program,
    State,
    Requests,
    Turns,
    Trace,
    Report,
    Schedule,
}

impl Role {
    /// The word for it, by which its line begins.
    pub fn name(self) -> &'static str
        ensures { result.now ≡ role_name self }
    {
        match self {
            Role::Program => "program",
            Role::State => "state",
            Role::Requests => "requests",
            Role::Turns => "turns",
            Role::Trace => "trace",
            Role::Report => "report",
            Role::Schedule => "schedule",
        }
    }
}

impl fmt::Display for Role {
    ghost use Rattle.std.specs.Prelude.{Some};

    ghost output = { λ role. Some (role_name role) };

    fn fmt<W: fmt::Write>(&self, f: &mut fmt::Formatter<W>) -> fmt::Result {
        write!(f, "{}", self.name())
    }
}
