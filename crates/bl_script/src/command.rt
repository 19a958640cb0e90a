//! Commands, and the refusals of lines that are none.

use bl_code::Octets;
use std::marker::Model;

/// One of the writes of a batch.
#[derive(Drop)]
pub enum Operation {
    /// The key stands for the value from now on.
    Put { key: Octets, value: Octets },
    /// The key stands for nothing from now on.
    Del { key: Octets },
}

/// Operations, which a contract sees as a list.
#[derive(Drop)]
pub struct Operations {
    items: Vec<Operation>,
}

impl Model for Operations {
    ghost use Rattle.std.specs.Prelude.{List};
    ghost use Rattle.bl_script.specs.declared.command.Operation.{Operation};

    ghost Value = { List Operation };

    ghost view = { λ a. a.items.items };
}

impl Operations {
    ghost use Rattle.std.specs.Prelude.{◌≡◌};

    /// These operations, which are moved.
    pub fn from_vec(items: Vec<Operation>) -> Operations
        ensures { result ≡ items.items }
    {
        Operations { items }
    }

    /// The operations, in their order.
    pub fn as_slice(&self) -> &[Operation]
        ensures { result.now ≡ self.now }
    {
        self.items.as_slice()
    }

    /// The operations, in their order. They are moved out: no key and no value is copied.
    pub fn into_vec(self) -> Vec<Operation>
        ensures { result.items ≡ self }
    {
        let Operations { items } = self;
        items
    }
}

/// A command of the script. Keys and values are decoded.
#[derive(Drop)]
pub enum Command {
    /// `put KEY =VALUE`: the key stands for the value from now on.
    Put {
        key: Octets,
        value: Octets,
    },
    /// `del KEY`: the key stands for nothing from now on.
    Del {
        key: Octets,
    },
    /// `batch` and one or more of these: all of them at once.
    Batch {
        operations: Operations,
    },
    /// `get KEY`: the key's value is told.
    Get {
        key: Octets,
    },
    /// `scan`, then at most a FROM and a TO key: the pairs from the one to before the other are told.
    Scan {
        from: Option<Octets>,
        to: Option<Octets>,
    },
    /// `sync`: all accepted batches are durable.
    Sync,
    /// `flush`: no entry is left in memory.
    Flush,
    /// `files`: the tables and the blob files are told.
    Files,
    /// `reopen`: the store is opened anew.
    Reopen,
}

/// Why a line is refused. The first that applies, in this order, is told.
#[derive(Clone, Copy, Debug, Drop, PartialEq, Eq)]
pub enum Refusal {
    /// The line has over 67,108,864 bytes.
    Long,
    /// It is no command.
    Syntax,
    /// Some key has over 65,535 bytes.
    Key,
    /// Some value has over 16,777,216 bytes.
    Value,
}

/// What a line orders.
#[derive(Drop)]
pub enum Parsed {
    /// Nothing: it has no words, or begins with `#`.
    Nothing,
    /// Nothing, since it is refused for this reason.
    Refused(Refusal),
    /// This command.
    Go(Command),
}
