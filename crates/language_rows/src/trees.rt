//! Units and statements as text, in one way for each tree.
//!
//! What is still to be put is a row of parts. A text is put, and a tree is replaced by its parts, so no function calls
//! itself, however deep a tree is. A form is a text in which `_` and `@` stand for what goes there.
use rows::{Case, CaseFault};
use sed_units::{
    Base, Case as Labelled, Class, Expr, Facet, ForFirst, ForHead, Form, Ident, InitValue, Link,
    Local, Member, MemberForm, Modifier, Node, Param, Size, Step, Stmt, TypeName, TypeRef, Unit,
};
use sed_value::Items;

const PRIMITIVES: &str = "bool,byte,short,int,long";

const CASTS: &str = "(bool _),(byte _),(short _),(int _),(long _)";

const MODIFIERS: &str =
    "public ,private ,protected ,internal ,abstract ,final ,static ,virtual ,override ,inline ,\
    define ,property ,action ";

const BINARY: &str =
    " || _, && _, == _, != _, < _, <= _, > _, >= _, | _, ^ _, & _, << _, >> _, + _, - _, * _, / _, % _";

const ASSIGNMENTS: &str =
    "(= _ _),(+= _ _),(-= _ _),(*= _ _),(/= _ _),(%= _ _),(&= _ _),(|= _ _),(^= _ _),(<<= _ _),\
    (>>= _ _)";

const PREFIXES: &str = "(! _),(- _),(~ _),(++ _),(-- _)";

const UPDATES: &str = "(_ ++),(_ --)";

// One of some forms.
fn nth(forms: &'static str, place: usize) -> &'static str {
    forms.split(',').nth(place).unwrap_or("")
}

// What stands before an item of a list.
fn gap(place: usize, between: &'static str) -> &'static str {
    if place == 0 { "" } else { between }
}

#[derive(Clone, Copy)]
enum Part<'t> {
    Text(&'t [u8]),
    Expr(&'t Expr),
    Stmt(&'t Stmt),
}

#[derive(Drop)]
struct Parts<'t> {
    all: Vec<Part<'t>>,
    is_whole: bool,
}

// Each adds parts behind those that are there.
impl<'t> Parts<'t> {
    fn add(&mut self, part: Part<'t>) {
        if self.all.push(part).is_err() {
            self.is_whole = false;
        }
    }

    fn word(&mut self, word: &'static str) {
        self.add(Part::Text(word.as_bytes()));
    }

    fn texts(&mut self, form: &'static str, texts: &[&'t Items<u8>]) {
        for (i, piece) in form.split('_').enumerate() {
            if let Some(text) = texts.get(i.wrapping_sub(1)) {
                self.add(Part::Text(text.as_slice()));
            }
            self.word(piece);
        }
    }

    fn exprs(&mut self, form: &'static str, exprs: &[&'t Expr]) {
        for (i, piece) in form.split('_').enumerate() {
            if let Some(e) = exprs.get(i.wrapping_sub(1)) {
                self.add(Part::Expr(e));
            }
            self.word(piece);
        }
    }

    // A condition, which stands for `_`, with statements, which stand for `@`.
    fn stmts(&mut self, form: &'static str, condition: &'t Expr, stmts: &[&'t Stmt]) {
        for (i, piece) in form.split('@').enumerate() {
            self.exprs(piece, &[condition]);
            if let Some(s) = stmts.get(i) {
                self.add(Part::Stmt(s));
            }
        }
    }

    fn call(&mut self, form: &'static str, id: &'t Ident, args: &'t [Expr]) {
        self.texts(form, &[&id.bytes]);
        for (i, arg) in args.iter().enumerate() {
            self.word(gap(i, ", "));
            self.add(Part::Expr(arg));
        }
        self.word(")");
    }

    fn chain(&mut self, first: &'t Expr, links: &'t [Link]) {
        self.exprs("(_", &[first]);
        for link in links {
            match &link.step {
                Step::Member(id) => self.texts(" ._", &[&id.bytes]),
                Step::Method(id, args) => self.call(" ._(", id, args),
                Step::Index(e) => self.exprs(" [_]", &[e]),
                Step::Operand(op, e) => self.exprs(nth(BINARY, *op as usize), &[e]),
            }
        }
        self.word(")");
    }

    fn expression(&mut self, e: &'t Expr) {
        match &e.node {
            Node::Literal(literal) => self.texts("_", &[&literal.bytes]),
            Node::This => self.word("this"),
            Node::Super(id, args) => self.call("super._(", id, args),
            Node::Name(id) => self.texts("_", &[&id.bytes]),
            Node::Of(kit, id) => self.texts("_::_", &[&kit.bytes, &id.bytes]),
            Node::Call(id, args) => self.call("_(", id, args),
            Node::Paren(e) => self.exprs("(_)", &[e]),
            Node::Prefix(op, e) => self.exprs(nth(PREFIXES, *op as usize), &[e]),
            Node::Cast(prim, e) => self.exprs(nth(CASTS, *prim as usize), &[e]),
            Node::Chain(first, links) => self.chain(first, links),
            Node::Update(op, e) => self.exprs(nth(UPDATES, *op as usize), &[e]),
            Node::Conditional(c, a, b) => self.exprs("(? _ _ _)", &[c, a, b]),
            Node::Assign(op, a, b) => self.exprs(nth(ASSIGNMENTS, *op as usize), &[a, b]),
        }
    }

    fn type_name(&mut self, name: &'t TypeName) {
        match &name.kit {
            Some(kit) => self.texts("_::_", &[&kit.bytes, &name.id.bytes]),
            None => self.texts("_", &[&name.id.bytes]),
        }
    }

    // A type, and a name of it.
    fn named(&mut self, kind: &'t TypeRef, name: &'t Ident) {
        match &kind.base {
            Base::Primitive(prim) => self.word(nth(PRIMITIVES, *prim as usize)),
            Base::Void => self.word("void"),
            Base::Named(name) => self.type_name(name),
        }
        match &kind.size {
            Some(Size::Parens(n)) => self.texts("(_)", &[&n.bytes]),
            Some(Size::Brackets(n)) => self.texts("[_]", &[&n.bytes]),
            None => {}
        }
        self.texts(" _", &[&name.bytes]);
    }

    fn local(&mut self, local: &'t Local) {
        self.word("local ");
        self.named(&local.kind, &local.name);
        match &local.value {
            Some(value) => self.exprs(" _;", &[value]),
            None => self.word(";"),
        }
    }

    // An expression that may be missing, which a dash stands for.
    fn perhaps(&mut self, e: &'t Option<Expr>) {
        match e {
            Some(e) => self.exprs("_ ", &[e]),
            None => self.word("- "),
        }
    }

    fn repeated(&mut self, head: &'t ForHead, s: &'t Stmt) {
        self.word("for ");
        match &head.first {
            ForFirst::Nothing => self.word("-"),
            ForFirst::Local(local) => self.local(local),
            ForFirst::Evaluate(e) => self.add(Part::Expr(e)),
        }
        self.word(" ");
        self.perhaps(&head.condition);
        self.perhaps(&head.last);
        self.add(Part::Stmt(s));
    }

    fn block(&mut self, front: &'static str, all: &'t [Stmt], end: &'static str) {
        self.word(front);
        for (i, s) in all.iter().enumerate() {
            self.word(gap(i, " "));
            self.add(Part::Stmt(s));
        }
        self.word(end);
    }

    fn switched(&mut self, e: &'t Expr, cases: &'t [Labelled]) {
        self.exprs("switch _ {", &[e]);
        for (i, labelled) in cases.iter().enumerate() {
            self.word(gap(i, " "));
            match &labelled.label {
                Some(e) => self.exprs("case _:", &[e]),
                None => self.word("default:"),
            }
            for s in &labelled.body {
                self.word(" ");
                self.add(Part::Stmt(s));
            }
        }
        self.word("}");
    }

    fn statement(&mut self, s: &'t Stmt) {
        match &s.form {
            Form::Block(all) => self.block("{", all, "}"),
            Form::Empty => self.word("empty;"),
            Form::If(c, s) => self.stmts("if _ @", c, &[s]),
            Form::IfElse(c, s, t) => self.stmts("if _ @ else @", c, &[s, t]),
            Form::While(c, s) => self.stmts("while _ @", c, &[s]),
            Form::DoWhile(s, c) => self.stmts("do @ while _;", c, &[s]),
            Form::For(head, s) => self.repeated(head, s),
            Form::Switch(e, cases) => self.switched(e, cases),
            Form::Break => self.word("break;"),
            Form::Continue => self.word("continue;"),
            Form::Return(None) => self.word("return;"),
            Form::Return(Some(e)) => self.exprs("return _;", &[e]),
            Form::Local(local) => self.local(local),
            Form::Evaluate(e) => self.exprs("_;", &[e]),
        }
    }

    // What stands in front of a class or a member.
    fn front(&mut self, facets: &'t [Facet], modifiers: &'t [Modifier]) {
        for facet in facets {
            match &facet.value {
                Some(value) => self.texts("@_=_ ", &[&facet.name.bytes, &value.bytes]),
                None => self.texts("@_ ", &[&facet.name.bytes]),
            }
        }
        for modifier in modifiers {
            self.word(nth(MODIFIERS, modifier.word as usize));
        }
    }

    fn params(&mut self, params: &'t [Param]) {
        self.word("(");
        for (i, param) in params.iter().enumerate() {
            self.word(gap(i, ", "));
            self.named(&param.kind, &param.name);
        }
        self.word(")");
    }

    fn member(&mut self, member: &'t Member) {
        self.front(member.facets.as_slice(), member.modifiers.as_slice());
        self.named(&member.kind, &member.name);
        match &member.form {
            MemberForm::Field(None) => self.word(";"),
            MemberForm::Field(Some(init)) => self.initial(&init.value),
            MemberForm::Method(params, None) => {
                self.params(params.as_slice());
                self.word(";");
            }
            MemberForm::Method(params, Some(body)) => {
                self.params(params.as_slice());
                self.block(" {", body.as_slice(), "}");
            }
        }
    }

    fn initial(&mut self, value: &'t InitValue) {
        match value {
            InitValue::Literal(literal) => self.texts(" = _;", &[&literal.bytes]),
            InitValue::Minus(literal) => self.texts(" = minus _;", &[&literal.bytes]),
            InitValue::Name(id) => self.texts(" = name _;", &[&id.bytes]),
        }
    }

    fn class(&mut self, class: &'t Class) {
        self.front(class.facets.as_slice(), class.modifiers.as_slice());
        self.texts("class _", &[&class.name.bytes]);
        if let Some(base) = &class.base {
            self.word(" : ");
            self.type_name(base);
        }
        self.word(" {");
        for (i, member) in class.members.as_slice().iter().enumerate() {
            self.word(gap(i, " "));
            self.member(member);
        }
        self.word("}");
    }

    // Puts the parts, and the parts of the trees among them.
    fn put(mut self, case: &mut Case) {
        // The next part is the last of `left`. The parts of a tree are gathered in their order, and then turned over.
        let mut left = Vec::new(case.alloc());
        for _ in 0..u64::MAX {
            for part in self.all.iter().rev() {
                if left.push(*part).is_err() {
                    case.fail(CaseFault::Memory);
                }
            }
            self.all.clear();
            match left.pop() {
                Some(Part::Text(text)) => case.put(text),
                Some(Part::Expr(e)) => self.expression(e),
                Some(Part::Stmt(s)) => self.statement(s),
                None => break,
            }
        }
        if !self.is_whole {
            case.fail(CaseFault::Memory);
        }
    }
}

/// Puts the classes of a unit.
pub fn put_unit(case: &mut Case, unit: &Unit) {
    let mut parts = Parts {
        all: Vec::new(case.alloc()),
        is_whole: true,
    };
    for (i, class) in unit.classes.as_slice().iter().enumerate() {
        parts.word(gap(i, " "));
        parts.class(class);
    }
    if unit.classes.is_empty() {
        parts.word("no class");
    }
    parts.put(case);
}
