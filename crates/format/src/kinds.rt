// What a byte names: the kinds of records, commands, actions, targets and nodes, and a variable. The arms are numbers, since a
// byte is read here. Kinds are matched, and derive no `==`; variables are compared too.
ghost use Rattle.std.specs.Prelude.{◌≡◌};
ghost use Rattle.format.specs.Record.{record_kind, command_kind, action_kind};
ghost use Rattle.format.specs.Group.{target_kind};
ghost use Rattle.format.specs.Policy.{node_kind, var_of};

// The kinds of records that a network has.
#[derive(Clone, Copy)]
pub enum RecordKind {
    Widths,
    Link,
    Miss,
    Rule,
    Node,
    Group,
    // A byte that names none.
    Unknown,
}

impl From<u8> for RecordKind {
    ghost from_gives = { λ b k. k ≡ record_kind b };

    fn from(b: u8) -> Self {
        match b {
            1 => RecordKind::Widths,
            2 => RecordKind::Link,
            3 => RecordKind::Miss,
            4 => RecordKind::Rule,
            5 => RecordKind::Node,
            9 => RecordKind::Group,
            0 | 6..=8 | 10..=255 => RecordKind::Unknown,
        }
    }
}

// The kinds of commands.
#[derive(Clone, Copy)]
pub enum CommandKind {
    Add,
    Modify,
    Delete,
    // A byte that names none.
    Unknown,
}

impl From<u8> for CommandKind {
    ghost from_gives = { λ b k. k ≡ command_kind b };

    fn from(b: u8) -> Self {
        match b {
            6 => CommandKind::Add,
            7 => CommandKind::Modify,
            8 => CommandKind::Delete,
            0..=5 | 9..=255 => CommandKind::Unknown,
        }
    }
}

// The kinds of actions.
#[derive(Clone, Copy)]
pub enum ActionKind {
    Output,
    Set,
    InPort,
    RunGroup,
    // A byte that names none.
    Unknown,
}

impl From<u8> for ActionKind {
    ghost from_gives = { λ b k. k ≡ action_kind b };

    fn from(b: u8) -> Self {
        match b {
            1 => ActionKind::Output,
            2 => ActionKind::Set,
            3 => ActionKind::InPort,
            4 => ActionKind::RunGroup,
            0 | 5..=255 => ActionKind::Unknown,
        }
    }
}

// The kinds of targets of a bucket.
#[derive(Clone, Copy)]
pub enum TargetKind {
    Port,
    LowerGroup,
    // A byte that names none.
    Unknown,
}

impl From<u8> for TargetKind {
    ghost from_gives = { λ b k. k ≡ target_kind b };

    fn from(b: u8) -> Self {
        match b {
            1 => TargetKind::Port,
            2 => TargetKind::LowerGroup,
            0 | 3..=255 => TargetKind::Unknown,
        }
    }
}

// The kinds of a policy's nodes.
#[derive(Clone, Copy)]
pub enum NodeKind {
    Bit,
    R,
    E,
    Not,
    And,
    Or,
    Some,
    All,
    Tc,
    // A byte that names none.
    Unknown,
}

impl From<u8> for NodeKind {
    ghost from_gives = { λ b k. k ≡ node_kind b };

    fn from(b: u8) -> Self {
        match b {
            0 => NodeKind::Bit,
            1 => NodeKind::R,
            2 => NodeKind::E,
            3 => NodeKind::Not,
            4 => NodeKind::And,
            5 => NodeKind::Or,
            6 => NodeKind::Some,
            7 => NodeKind::All,
            8 => NodeKind::Tc,
            9..=255 => NodeKind::Unknown,
        }
    }
}

// The two variables of a policy.
#[derive(Clone, Copy, PartialEq, Eq)]
pub enum Var {
    X,
    Y,
}

impl From<u8> for Var {
    ghost from_gives = { λ b v. v ≡ var_of b };

    fn from(b: u8) -> Self {
        match b {
            0 => Var::X,
            1..=255 => Var::Y,
        }
    }
}
