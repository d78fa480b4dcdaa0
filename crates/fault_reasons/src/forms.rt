// The forms of nodes in a level file.
use serde_json::Value;
use std::alloc::{AllocError, Global};
use strsim::levenshtein;

/// What stands behind the head of a node.
#[derive(Clone, Copy, Debug, PartialEq, Eq)]
pub(crate) enum Arguments {
    Nothing,
    Nodes,
    Node,
    NumberAndNodes,
    NumberAndNode,
    Number,
    Digit,
    Small,
    Capital,
}

/// A kind of node.
#[derive(Clone, Copy, Debug)]
pub(crate) struct Form {
    pub(crate) head: &'static str,
    pub(crate) arguments: Arguments,
}

static FORMS: [Form; 18] = [
    Form {
        head: "seq",
        arguments: Arguments::Nodes,
    },
    Form {
        head: "fallback",
        arguments: Arguments::Nodes,
    },
    Form {
        head: "par",
        arguments: Arguments::NumberAndNodes,
    },
    Form {
        head: "seq*",
        arguments: Arguments::Nodes,
    },
    Form {
        head: "fallback*",
        arguments: Arguments::Nodes,
    },
    Form {
        head: "not",
        arguments: Arguments::Node,
    },
    Form {
        head: "tries",
        arguments: Arguments::NumberAndNode,
    },
    Form {
        head: "ticks",
        arguments: Arguments::NumberAndNode,
    },
    Form {
        head: "wait",
        arguments: Arguments::Number,
    },
    Form {
        head: "move",
        arguments: Arguments::Digit,
    },
    Form {
        head: "take",
        arguments: Arguments::Nothing,
    },
    Form {
        head: "drop",
        arguments: Arguments::Nothing,
    },
    Form {
        head: "at",
        arguments: Arguments::Digit,
    },
    Form {
        head: "carrying",
        arguments: Arguments::Nothing,
    },
    Form {
        head: "item",
        arguments: Arguments::Nothing,
    },
    Form {
        head: "signal",
        arguments: Arguments::Small,
    },
    Form {
        head: "near",
        arguments: Arguments::Number,
    },
    Form {
        head: "give",
        arguments: Arguments::Capital,
    },
];

/// What is called a node here that other behaviour trees know by this name.
fn known_as(name: &str) -> Option<&'static str> {
    match name {
        "sequence" => Some("seq"),
        "sequence*" | "memory_sequence" => Some("seq*"),
        "selector" | "priority" => Some("fallback"),
        "selector*" | "memory_selector" => Some("fallback*"),
        "parallel" => Some("par"),
        "inverter" | "invert" => Some("not"),
        "retry" | "repeat" => Some("tries"),
        "timeout" => Some("ticks"),
        "sleep" | "delay" => Some("wait"),
        _ => None,
    }
}

/// Whether a value is a text of one character between two.
fn is_mark(value: &Value, low: u8, high: u8) -> bool {
    match value.as_str().unwrap_or("").as_bytes() {
        [c] => low <= *c && *c <= high,
        _ => false,
    }
}

impl Arguments {
    /// How documents write them behind a head.
    fn written(self) -> &'static str {
        match self {
            Arguments::Nothing => "",
            Arguments::Nodes => ", c, ..",
            Arguments::Node => ", c",
            Arguments::NumberAndNodes => ", M, c, ..",
            Arguments::NumberAndNode => ", N, c",
            Arguments::Number => ", N",
            Arguments::Digit => ", \"0\"",
            Arguments::Small => ", \"a\"",
            Arguments::Capital => ", \"B\"",
        }
    }

    /// Whether values are such arguments, whatever the values are that stand for nodes.
    pub(crate) fn fits(self, values: &[Value]) -> bool {
        match (self, values) {
            (Arguments::Nothing, []) | (Arguments::Node, [_]) | (Arguments::Nodes, _) => true,
            (Arguments::Number, [n])
            | (Arguments::NumberAndNode, [n, _])
            | (Arguments::NumberAndNodes, [n, ..]) => n.as_u64().is_some(),
            (Arguments::Digit, [mark]) => is_mark(mark, b'0', b'9'),
            (Arguments::Small, [mark]) => is_mark(mark, b'a', b'z'),
            (Arguments::Capital, [mark]) => is_mark(mark, b'A', b'Z'),
            _ => false,
        }
    }

    /// How many values of a node's list stand before its nodes, the head among them; none where it takes no nodes.
    pub(crate) fn before_nodes(self) -> Option<usize> {
        match self {
            Arguments::Nodes | Arguments::Node => Some(1),
            Arguments::NumberAndNodes | Arguments::NumberAndNode => Some(2),
            _ => None,
        }
    }
}

impl Form {
    /// The kind of node with this head.
    pub(crate) fn of(head: &str) -> Option<Form> {
        FORMS.iter().find(|form| form.head == head).copied()
    }

    /// As documents write it.
    pub(crate) fn text(self, alloc: Global) -> Result<String, AllocError> {
        let head = self.head;
        let arguments = self.arguments.written();
        format!(in alloc; "[\"{head}\"{arguments}]")
    }

    /// The kind of node that was probably meant by a head: the one that others call so, or the first that two edits or fewer lead to.
    pub(crate) fn near(alloc: Global, head: &str) -> Result<Option<Form>, AllocError> {
        if let Some(known) = known_as(head) {
            return Ok(Form::of(known));
        }
        // No head is that long, and to compare takes time by the length.
        if head.len() > 40 {
            return Ok(None);
        }
        for most in 1..3usize {
            for form in &FORMS {
                if levenshtein(alloc, head, form.head)? <= most {
                    return Ok(Some(*form));
                }
            }
        }
        Ok(None)
    }
}

/// The kind of a node, and what stands behind its head; none where the value isn't a list that begins with a known head.
pub(crate) fn kind_of(node: &Value) -> Option<(Form, &[Value])> {
    let Value::Array(items) = node else {
        return None;
    };
    let (head, arguments) = items.split_first()?;
    Some((Form::of(head.as_str()?)?, arguments))
}
