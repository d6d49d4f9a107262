//! Commands as values.
use fn_rules::{Head, Level};

/// What the file holds whose events `trace` tells.
#[derive(Clone, Copy)]
pub enum TraceKind {
    /// A case.
    Case,

    /// A session.
    Session,

    /// A hub.
    Hub,
}

/// A command, with the names of its files.
#[derive(Clone, Copy)]
pub enum Command<'a> {
    /// A function is proved, or refuted.
    Prove {
        /// The level.
        level: Level,

        /// How many questions may be asked.
        budget: u64,

        /// The name of the function's file.
        function: &'a str,
    },

    /// A function is proved by a proof with lemmas, or refuted.
    Settle {
        /// The level.
        level: Level,

        /// How many questions may be asked.
        budget: u64,

        /// The name of the function's file.
        function: &'a str,
    },

    /// The fewest edits are looked for that make a function right.
    Mend {
        /// The level.
        level: Level,

        /// How many edits there may be.
        edits: u32,

        /// How many functions may be looked at that so many edits lead to.
        budget: u64,

        /// The name of the function's file.
        function: &'a str,
    },

    /// It is told why a function has the properties of a level, or where it breaks one.
    Explain {
        /// The level.
        level: Level,

        /// The name of the function's file.
        function: &'a str,
    },

    /// A certificate is judged.
    Check {
        /// The name of the function's file.
        function: &'a str,

        /// The name of the certificate's file.
        certificate: &'a str,
    },

    /// The operations of a case are integrated.
    Integrate {
        /// The name of the function's file.
        function: &'a str,

        /// The name of the case's file.
        case: &'a str,
    },

    /// The events of a session are run.
    Replay {
        /// The name of the function's file.
        function: &'a str,

        /// The name of the session's file.
        session: &'a str,
    },

    /// The events of a hub are run.
    Hub {
        /// The name of the function's file.
        function: &'a str,

        /// The name of the hub's file.
        hub: &'a str,
    },

    /// The orders of a case, or the events of a session or of a hub, are told one by one.
    Trace {
        /// What the other file holds.
        events: TraceKind,

        /// The name of the function's file.
        function: &'a str,

        /// The name of the other file.
        file: &'a str,
    },

    /// What the guards of a function reach is looked for.
    Audit {
        /// The name of the function's file.
        function: &'a str,
    },

    /// Two functions are compared.
    Same {
        /// The name of the first function's file.
        function: &'a str,

        /// The name of the second function's file.
        other: &'a str,
    },

    /// It is looked for whether a second function takes back what the first one makes.
    Reverse {
        /// The name of the first function's file.
        function: &'a str,

        /// The name of the second function's file.
        other: &'a str,
    },

    /// The shortest document is looked for on which a function breaks a property.
    Least {
        /// Whether a certificate is asked for that none is shorter.
        cert: bool,

        /// The name of the function's file.
        function: &'a str,
    },

    /// A certificate that no shorter document breaks a property is judged.
    Bound {
        /// The name of the function's file.
        function: &'a str,

        /// The name of the certificate's file.
        certificate: &'a str,
    },

    /// A proof with lemmas is judged.
    Confirm {
        /// The name of the function's file.
        function: &'a str,

        /// The name of the proof's file.
        proof: &'a str,
    },

    /// A function to begin with is printed.
    Template {
        /// The level that it is to have.
        level: Level,

        /// What the function is to be for.
        head: Head,
    },

    /// The workload that is generated from a number is gone through.
    Drill {
        /// The number.
        number: u32,
    },
}
