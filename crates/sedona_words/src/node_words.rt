//! The words of a node: where its code is from, its files, its bounds, and how it is run.
ghost use Rattle.std.specs.Prelude.{◌≡◌, IfSome};
ghost use Rattle.std.specs.Option.{option_map};
ghost use Rattle.sedona_words.specs.Asked.{asked_code, asked_node, asked_run, IsMeantCode, IsMeantNode, IsMeantRun};
ghost use Rattle.sedona_words.specs.Command as words_of;

use crate::words::{
    cycle_count, data_limit, is_file_name, is_manifests, period_length, port_number, turn_count,
};

/// The words that name the code of a node.
#[derive(Clone, Copy)]
pub enum CodeWords<'a> {
    /// The names of the manifests of kits with commas between them.
    Kits(&'a str),
    /// The name of the file of an image.
    Image(&'a str),
}

/// The words of a command that runs a node.
#[derive(Clone, Copy)]
pub struct NodeWords<'a> {
    /// What its code is from.
    pub code: CodeWords<'a>,
    /// The name of the store.
    pub store: &'a str,
    /// The name of the users file.
    pub users: &'a str,
    /// The name of the secret file.
    pub secret: &'a str,
    /// The turns of each root call, 1 to 1,000,000.
    pub turns: u32,
    /// The most bytes of data, 1 to 4,194,304.
    pub limit: u32,
}

/// The words of `run`, or of `boot`.
#[derive(Clone, Copy)]
pub struct RunWords<'a> {
    /// The words of the node.
    pub node: NodeWords<'a>,
    /// The port that is listened on, 1 to 65,535.
    pub port: u16,
    /// The number of cycles, 0 to 1,000,000.
    pub cycles: u32,
    /// The milliseconds from one cycle to the next, 1 to 60,000.
    pub period: u32,
}

/// The code of kits, by the names of their manifests with commas between them. None where these are not 1 to 15 names
/// of files.
pub fn kits_named<'a>(kits: &'a str) -> Option<CodeWords<'a>>
    ensures meant { IfSome result IsMeantCode }
    ensures code { option_map asked_code result ≡ words_of.kits_named kits.now }
{
    if is_manifests(kits) {
        Some(CodeWords::Kits(kits))
    } else {
        None
    }
}

/// The code of an image, by the name of its file. None where this is no name of a file.
pub fn image_named<'a>(image: &'a str) -> Option<CodeWords<'a>>
    ensures meant { IfSome result IsMeantCode }
    ensures code { option_map asked_code result ≡ words_of.image_named image.now }
{
    if is_file_name(image) {
        Some(CodeWords::Image(image))
    } else {
        None
    }
}

/// The words of a node, by its code and the names of its files, and its turns and bytes of data in digits. None where
/// it has no code, or one of them is out of its bounds.
pub fn node_named<'a>(
    code: Option<CodeWords<'a>>,
    store: &'a str,
    users: &'a str,
    secret: &'a str,
    turns: &[u8],
    limit: &[u8],
) -> Option<NodeWords<'a>>
    requires { IfSome code IsMeantCode }
    ensures meant { IfSome result IsMeantNode }
    ensures node { option_map asked_node result
        ≡ words_of.node_named (option_map asked_code code.entry) store.now users.now secret.now turns.now limit.now }
{
    if !is_file_name(store) || !is_file_name(users) || !is_file_name(secret) {
        return None;
    }
    let code = code?;
    let turns = turn_count(turns)?;
    let limit = data_limit(limit)?;
    Some(NodeWords {
        code,
        store,
        users,
        secret,
        turns,
        limit,
    })
}

/// The words of a run of a node, with its port, its cycles and its period in digits. None where there is no node, or
/// one of them is out of its bounds.
pub fn run_named<'a>(
    node: Option<NodeWords<'a>>,
    port: &[u8],
    cycles: &[u8],
    period: &[u8],
) -> Option<RunWords<'a>>
    requires { IfSome node IsMeantNode }
    ensures meant { IfSome result IsMeantRun }
    ensures run { option_map asked_run result
        ≡ words_of.run_named (option_map asked_node node.entry) port.now cycles.now period.now }
{
    let node = node?;
    let port = port_number(port)?;
    let cycles = cycle_count(cycles)?;
    let period = period_length(period)?;
    Some(RunWords {
        node,
        port,
        cycles,
        period,
    })
}
