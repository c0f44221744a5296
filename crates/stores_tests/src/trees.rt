//! Nodes for tests, and trees as words.
use es_scope::flags::ScopeFlags;
use es_tree::ids::{NodeId, Span};
use es_tree::kind::Kind;
use es_tree::node::{Field, Node};
use es_tree::options::{
    Assumptions, ES2015Options, ES2016Options, ES2017Options, ES2018Options, ES2019Options,
    ES2020Options, ES2021Options, ES2026Options, EnvOptions, HelperLoaderOptions,
};
use std::alloc::{AllocError, Global};

pub(crate) const NOWHERE: Span = Span { start: 0, end: 0 };

/// The flags of the scope of a module.
pub(crate) const TOP: ScopeFlags = ScopeFlags {
    function: false,
    arrow: false,
    top: true,
    class_static_block: false,
    catch_clause: false,
    constructor: false,
    derived: false,
    strict: true,
};

pub(crate) fn no_options(alloc: Global) -> Result<EnvOptions, AllocError> {
    Ok(EnvOptions {
        es2015: ES2015Options::default(),
        es2016: ES2016Options::default(),
        es2017: ES2017Options::default(),
        es2018: ES2018Options::default(),
        es2019: ES2019Options::default(),
        es2020: ES2020Options::default(),
        es2021: ES2021Options::default(),
        es2026: ES2026Options::default(),
        assumptions: Assumptions::default(),
        helper_loader: HelperLoaderOptions::new(alloc)?,
    })
}

/// A node without fields.
pub(crate) fn leaf(alloc: Global, id: NodeId, kind: Kind) -> Node {
    Node {
        id,
        span: NOWHERE,
        kind,
        fields: Vec::new(alloc),
    }
}

/// A node that stands for a statement, and is shown as this name.
pub(crate) fn named(alloc: Global, id: NodeId, name: &str) -> Result<Node, AllocError> {
    let kind = Kind::Identifier {
        name: String::from_str(alloc, name)?,
        reference: None,
        symbol: None,
    };
    Ok(leaf(alloc, id, kind))
}

fn word(kind: &Kind) -> &str {
    match kind {
        Kind::Identifier { name, .. } => name.as_str(),
        Kind::StringLiteral { value } => value.as_str(),
        Kind::ObjectExpression => "{}",
        Kind::CallExpression { .. } => "call",
        Kind::MemberExpression { .. } => "member",
        Kind::VariableDeclaration { kind } => kind.as_str(),
        Kind::VariableDeclarator => "=",
        Kind::ImportDeclaration => "import",
        Kind::ImportSpecifier => "named",
        Kind::ImportDefaultSpecifier => "default",
        _ => "?",
    }
}

/// The children of the node on top of those that wait, the first on top.
fn push_children<'a>(waiting: &mut Vec<&'a Node>, node: &'a Node) -> Result<(), AllocError> {
    for field in node.fields.iter().rev() {
        match field {
            Field::Missing => {}
            Field::One(child) => waiting.push(child)?,
            Field::Many(children) | Field::Statements(children) => {
                for child in children.iter().rev() {
                    waiting.push(child)?;
                }
            }
        }
    }
    Ok(())
}

/// A word for each node, each before those of its children, for a tree of few nodes.
pub(crate) fn show(alloc: Global, text: &mut String, node: &Node) -> Result<(), AllocError> {
    let mut waiting = Vec::from_array(alloc, [node])?;
    for _ in 0..99 {
        let Some(node) = waiting.pop() else {
            return Ok(());
        };
        text.push_str(" ")?;
        text.push_str(word(&node.kind))?;
        push_children(&mut waiting, node)?;
    }
    Ok(())
}

/// The trees, one after the other.
pub(crate) fn shown(alloc: Global, nodes: &[Node]) -> Result<String, AllocError> {
    let mut text = String::new(alloc);
    for node in nodes {
        show(alloc, &mut text, node)?;
        text.push_str(";")?;
    }
    Ok(text)
}
