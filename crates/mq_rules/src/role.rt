//! The end that is judged.
ghost use Rattle.std.specs.Prelude.{◌≡◌};
ghost use Rattle.mq_rules.specs.Notes.{tested_as};

use mq_log::Header;

/// An end of an MQTT session.
#[derive(Clone, Copy, Debug, PartialEq, Eq)]
pub enum Role {
    /// The Client (MQTT 5.0, section 1.2).
    Client,
    /// The Server (MQTT 5.0, section 1.2).
    Server,
}

/// Which of the further statements are judged, beside those that always are.
#[derive(Clone, Copy, Debug, PartialEq, Eq)]
pub struct Further {
    /// Those that need no times.
    pub on_request: bool,
    /// Those on times: the log's moments are microseconds.
    pub with_times: bool,
}

impl Further {
    /// None of them.
    pub const NONE: Further = Further {
        on_request: false,
        with_times: false,
    };
    /// Those that need no times.
    pub const ON_REQUEST: Further = Further {
        on_request: true,
        with_times: false,
    };
    /// All of them.
    pub const WITH_TIMES: Further = Further {
        on_request: true,
        with_times: true,
    };
}

/// The tested end, as the log's header names it, and which statements are judged.
#[derive(Clone, Copy, Debug, PartialEq, Eq)]
pub struct Tested {
    /// Which end it is.
    pub role: Role,
    /// Whether the log records the releases of QoS 2 messages.
    pub releases: bool,
    /// Which of the further statements are judged too.
    pub further: Further,
}

impl Tested {
    /// The end that a log's header names, judged by these further statements too.
    pub fn of(header: Header, further: Further) -> Tested
        ensures { result ≡ tested_as further header }
    {
        let role = if header.server {
            Role::Server
        } else {
            Role::Client
        };
        Tested {
            role,
            releases: header.releases,
            further,
        }
    }
}
