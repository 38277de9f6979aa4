// The pen and what it writes of each node. A node is known by where it ends: the record of the node that ends at i is
// number i - 1. Codes and details are numbers, not enums: they stand in the lent table, and are told apart by ranges.

ghost use Rattle.std.specs.Prelude.{option_to_list, ◌≡◌, [], ◌∷◌, ◌++◌, ◌+◌, ◌≤◌};
ghost use Rattle.grammar.specs.NodeNames.{node_query, node_select, node_values, node_table, node_call, node_case, node_cast, node_prefix, node_between};
ghost use Rattle.grammar.specs.Reading.{choose};
ghost use Rattle.grammar.specs.Writing.{tok, toktext, binary_toks, not_if, join_of, join_words};
ghost use Rattle.shapes.specs.Shape.{a_body, a_from, a_source, a_constraint, an_expr, a_name, Joining};
ghost use Rattle.scribe.proofs.Whole.{Whole};
ghost use Rattle.scribe.proofs.Kids.{Maybe};
ghost use Rattle.scribe.proofs.Spelt.{literal_kind, name_kind};
ghost use Rattle.scribe.proofs.Clauses.{code_at};
ghost use Rattle.scribe.proofs.Parts.{Coded, Term, Operand, Terms, Inside, Perhaps, Part, leads_of, node_toks, coded_toks, term_toks, operand_toks, may_toks, bare_toks, row_toks, terms_toks, inside_toks, inner_toks, perhaps_toks, limit_toks, group_toks, tail_toks, whens_toks, args_toks, part_toks, constraint_toks, join_toks, leaf_toks, opens, alias_toks, schema_toks, titled_toks, index_toks, using_toks, selected_toks, nulls_toks, way_toks};
ghost use Rattle.writer.specs.Pages.{nodes_of, Wrote, Writ, Trails, Closes, Bounds};

use crate::lent::{ANY, Pages, last};
use kinds::{
    AND, AS, BETWEEN, BLOB, BY, CASE, CAST, COLLATE, COMMA, CTIME_KW, DESC, DISTINCT, DOT, ELSE,
    END, EXISTS, FIRST, FLOAT, FROM, GROUP, HAVING, ID, IN, INDEXED, INTEGER, IS, JOIN, JOIN_KW,
    LAST, LIKE_KW, LIMIT, LP, NOT, NULL, NULLS, OFFSET, ON, ORDER, RP, SELECT, STAR, STRING, THEN,
    USING, VALUES, VARIABLE, WHEN, WHERE, node,
};

// The strength that BETWEEN's bounds ask for.
const BOUND: u32 = 5;

// The list that is written, and where the tokens that stand in it begin: the next one is put before them, so a
// node's tokens are written from its last to its first. The pages are lent beside the pen: in it, each function would have
// to promise that they are the same after.
#[derive(Drop)]
pub struct Pen<'a> {
    pub out: &'a mut [u32],
    pub to: u32,
}

fn name_kind(code: u32) -> u32
    ensures { result ≡ name_kind code }
{
    match code {
        node::STRING_NAME => STRING,
        node::INDEXED_NAME => INDEXED,
        node::JOIN_NAME => JOIN_KW,
        _ => ID,
    }
}

fn literal_kind(code: u32) -> u32
    ensures { result ≡ literal_kind code }
{
    match code {
        node::INTEGER => INTEGER,
        node::FLOAT => FLOAT,
        node::STRING => STRING,
        node::BLOB => BLOB,
        node::VARIABLE => VARIABLE,
        _ => CTIME_KW,
    }
}

// Whether the first child stands first: the others and the node's own words come after it.
fn leads(code: u32) -> bool
    ensures { result ≡ leads_of code }
{
    matches!(
        code,
        node::COLUMN | node::SORT | node::BINARY..=node::COLLATE
    )
}

impl Pen<'_> {
    // ---- tokens

    // A token: one of its numbers, where the list has the place.
    fn put(&mut self, pages: &Pages, kind: u32, text: u32)
        ensures { Wrote pages.now self.old self.new (toktext kind text ∷ []) }
    {
        if self.to == 0 {
            return;
        }
        self.to -= 1;
        let at = self.to as usize;
        if at < self.out.len() {
            self.out[at] = pages.number(kind, text);
        }
    }

    fn word(&mut self, pages: &Pages, kind: u32)
        ensures { Wrote pages.now self.old self.new (tok kind ∷ []) }
    {
        self.put(pages, kind, 0);
    }

    fn words(&mut self, pages: &Pages, one: u32, two: u32)
        ensures { Wrote pages.now self.old self.new (tok one ∷ tok two ∷ []) }
    {
        self.word(pages, two);
        self.word(pages, one);
    }

    // A word, where a detail says so.
    fn word_if(&mut self, pages: &Pages, kind: u32, said: bool)
        ensures { Wrote pages.now self.old self.new (choose said (tok kind ∷ []) []) }
    {
        if said {
            self.word(pages, kind);
        }
    }

    // ---- names and literals

    fn name(&mut self, pages: &Pages, i: u32)
        ensures { Writ (node_toks a_name) pages.now self.old self.new i }
    {
        self.put(pages, name_kind(pages.code(i)), pages.detail(i));
    }

    // A literal, STAR or name DOT STAR. Of NULL no text is read.
    fn leaf(&mut self, pages: &Pages, i: u32, c: u32)
        ensures { c ≡ code_at (nodes_of pages.now) i → Writ leaf_toks pages.now self.old self.new i }
    {
        match c {
            node::NULL => self.word(pages, NULL),
            node::STAR => self.word(pages, STAR),
            node::NAME_STAR => {
                self.words(pages, DOT, STAR);
                self.name(pages, last(i));
            }
            _ => self.put(pages, literal_kind(c), pages.detail(i)),
        }
    }

    // The names that a node has for children. This, `list`, `values` and `from` are one loop with another body, and
    // stay four: by a trait's method a cycle of calls is not covered, and a closure in the cycle wants clauses of its
    // own, longer than the loop.
    fn names(&mut self, pages: &Pages, i: u32, separator: u32)
        ensures { Writ (row_toks a_name (tok separator)) pages.now self.old self.new i }
    {
        let mut j = last(i);
        for left in (0..pages.children(i)).rev() {
            self.name(pages, j);
            j = pages.before(j);
            if left > 0 {
                self.word(pages, separator);
            }
        }
    }

    // AS and a name, or nothing: an alias, or the type in CAST.
    fn alias(&mut self, pages: &Pages, i: u32)
        ensures { Writ alias_toks pages.now self.old self.new i }
    {
        if pages.code(i) == node::ABSENT {
            return;
        }
        self.name(pages, i);
        self.word(pages, AS);
    }

    // ---- expressions

    // An expression, a column or a sort term, at a place that asks for a strength. Children that stand first are
    // gone through by the loop (`ex`): a chain of operators is as deep as it is long. It is called through a function
    // that is taken into each caller, so that a caller's calls of it share one place on the stack.
    #[cycle(spelling)]
    fn expr(&mut self, pages: &Pages, i: u32, ask: u32)
        requires { Term (nodes_of pages.now) i }
        ensures { Writ (term_toks ask) pages.now self.old self.new i }
    {
        self.ex(pages, i, ask);
    }

    #[cycle(spelling)]
    fn ex(&mut self, pages: &Pages, end: u32, ask: u32)
        requires { Term (nodes_of pages.now) end }
        ensures { Writ (term_toks ask) pages.now self.old self.new end }
    {
        let mut i = end;
        let mut s = ask;
        let mut pairs = 0;
        loop {
            i = pages.bare(i);
            let c = pages.code(i);
            let k = pages.strength(c, pages.detail(i));
            // Told by a call and a sum, not an `if`: each later need of the turn would be shown for both ways.
            let loose = k < s;
            self.word_if(pages, RP, loose);
            pairs += u32::from(loose);
            if !leads(c) {
                self.operand(pages, i, c);
                self.opened(pages, pairs);
                return;
            }
            self.rest(pages, i, k);
            i = pages.first(i);
            s = k;
        }
    }

    // So many LP.
    fn opened(&mut self, pages: &Pages, pairs: u32)
        ensures { Wrote pages.now self.old self.new (opens pairs []) }
    {
        for _ in 0..pairs {
            self.word(pages, LP);
        }
    }

    // What comes after the first child. A right operand is strictly tighter than its operator.
    #[cycle(spelling)]
    fn rest(&mut self, pages: &Pages, i: u32, k: u32)
        requires { Term (nodes_of pages.now) i × (k ≤ 12) }
        ensures { Trails k pages.now self.old self.new i }
    {
        let c = pages.code(i);
        match c {
            node::BINARY => {
                self.expr(pages, last(i), k + 1);
                self.operator(pages, pages.detail(i));
            }
            node::BETWEEN => self.bounds(pages, i),
            node::IN_LIST | node::IN_QUERY => {
                self.within(pages, last(i));
                self.maybe_not(pages, pages.detail(i), IN);
            }
            _ => self.after(pages, i, c),
        }
    }

    // Where no expression comes after it.
    fn after(&mut self, pages: &Pages, i: u32, c: u32)
        ensures { Closes c pages.now self.old self.new i }
    {
        match c {
            node::NULL_TEST => self.word(pages, pages.detail(i)),
            node::COLUMN => self.alias(pages, last(i)),
            node::SORT => self.way(pages, pages.detail(i)),
            _ => {
                self.name(pages, last(i));
                self.word(pages, COLLATE);
            }
        }
    }

    fn operator(&mut self, pages: &Pages, d: u32)
        ensures { Wrote pages.now self.old self.new (binary_toks d) }
    {
        if d >= node::NOT_LIKE {
            self.put(pages, LIKE_KW, d - node::NOT_LIKE);
            self.word(pages, NOT);
        } else if d >= node::LIKE {
            self.put(pages, LIKE_KW, d - node::LIKE);
        } else if d == node::IS_NOT {
            self.words(pages, IS, NOT);
        } else {
            self.word(pages, d);
        }
    }

    // BETWEEN low AND high.
    #[cycle(spelling)]
    fn bounds(&mut self, pages: &Pages, i: u32)
        requires { Coded node_between (nodes_of pages.now) i }
        ensures { Bounds pages.now self.old self.new i }
    {
        self.expr(pages, last(i), BOUND);
        self.word(pages, AND);
        self.expr(pages, pages.child(i, 1), BOUND);
        self.maybe_not(pages, pages.detail(i), BETWEEN);
    }

    // A word, after NOT where the detail says so.
    fn maybe_not(&mut self, pages: &Pages, d: u32, kind: u32)
        ensures { Wrote pages.now self.old self.new (not_if d ++ (tok kind ∷ [])) }
    {
        self.word(pages, kind);
        self.word_if(pages, NOT, d == node::NOT);
    }

    // What doesn't begin with an expression.
    #[cycle(spelling)]
    fn operand(&mut self, pages: &Pages, i: u32, c: u32)
        requires { Operand (nodes_of pages.now) i × (c ≡ code_at (nodes_of pages.now) i) }
        ensures { Writ operand_toks pages.now self.old self.new i }
    {
        if c < node::NAMES {
            self.leaf(pages, i, c);
            return;
        }
        match c {
            node::NAMES => self.names(pages, i, DOT),
            node::CALL => self.call(pages, i),
            node::PARENS => self.within(pages, i),
            node::SUBQUERY | node::EXISTS => {
                self.within(pages, last(i));
                self.word_if(pages, EXISTS, c == node::EXISTS);
            }
            node::CASE => self.case(pages, i),
            node::CAST => self.cast(pages, i),
            _ => self.prefix(pages, i),
        }
    }

    #[cycle(spelling)]
    fn prefix(&mut self, pages: &Pages, i: u32)
        requires { Coded node_prefix (nodes_of pages.now) i }
        ensures { Writ (coded_toks node_prefix) pages.now self.old self.new i }
    {
        let d = pages.detail(i);
        self.expr(pages, last(i), kinds::prefix(d));
        self.word(pages, d);
    }

    // ( query ) or ( members )
    #[cycle(spelling)]
    fn within(&mut self, pages: &Pages, i: u32)
        requires { Inside (nodes_of pages.now) i }
        ensures { Writ inside_toks pages.now self.old self.new i }
    {
        self.word(pages, RP);
        self.inner(pages, i);
        self.word(pages, LP);
    }

    #[cycle(spelling)]
    fn inner(&mut self, pages: &Pages, i: u32)
        requires { Inside (nodes_of pages.now) i }
        ensures { Writ inner_toks pages.now self.old self.new i }
    {
        if pages.code(i) == node::QUERY {
            self.query(pages, i);
        } else {
            self.list(pages, i);
        }
    }

    #[cycle(spelling)]
    fn call(&mut self, pages: &Pages, i: u32)
        requires { Coded node_call (nodes_of pages.now) i }
        ensures { Writ (coded_toks node_call) pages.now self.old self.new i }
    {
        self.word(pages, RP);
        self.args(pages, i);
        self.word(pages, LP);
        self.name(pages, pages.child(i, 1));
    }

    // STAR, or arguments after an optional DISTINCT.
    #[cycle(spelling)]
    fn args(&mut self, pages: &Pages, i: u32)
        requires { Coded node_call (nodes_of pages.now) i }
        ensures { Writ args_toks pages.now self.old self.new i }
    {
        let d = pages.detail(i);
        if d == node::STAR_CALL {
            self.word(pages, STAR);
        } else {
            self.list(pages, last(i));
            self.word_if(pages, DISTINCT, d == node::DISTINCT);
        }
    }

    #[cycle(spelling)]
    fn case(&mut self, pages: &Pages, i: u32)
        requires { Coded node_case (nodes_of pages.now) i }
        ensures { Writ (coded_toks node_case) pages.now self.old self.new i }
    {
        self.word(pages, END);
        self.clause(pages, last(i), ELSE);
        self.whens(pages, i);
        self.word(pages, CASE);
    }

    // The base, if there is one, and the pairs of WHEN and THEN.
    #[cycle(spelling)]
    fn whens(&mut self, pages: &Pages, i: u32)
        requires { Coded node_case (nodes_of pages.now) i }
        ensures { Writ whens_toks pages.now self.old self.new i }
    {
        let mut j = pages.child(i, 1);
        for _ in 1..pages.children(i) / 2 {
            self.clause(pages, j, THEN);
            j = pages.before(j);
            self.clause(pages, j, WHEN);
            j = pages.before(j);
        }
        if pages.code(j) != node::ABSENT {
            self.expr(pages, j, ANY);
        }
    }

    #[cycle(spelling)]
    fn cast(&mut self, pages: &Pages, i: u32)
        requires { Coded node_cast (nodes_of pages.now) i }
        ensures { Writ (coded_toks node_cast) pages.now self.old self.new i }
    {
        self.word(pages, RP);
        self.alias(pages, last(i));
        self.expr(pages, pages.child(i, 1), ANY);
        self.words(pages, CAST, LP);
    }

    // ---- lists and clauses

    // The members of a list, parted by COMMA.
    #[cycle(spelling)]
    fn list(&mut self, pages: &Pages, i: u32)
        requires { Terms (nodes_of pages.now) i }
        ensures { Writ terms_toks pages.now self.old self.new i }
    {
        let mut j = last(i);
        for left in (0..pages.children(i)).rev() {
            self.expr(pages, j, ANY);
            j = pages.before(j);
            if left > 0 {
                self.word(pages, COMMA);
            }
        }
    }

    // [ DESC ] [ NULLS FIRST or LAST ]
    fn way(&mut self, pages: &Pages, d: u32)
        ensures { Wrote pages.now self.old self.new (way_toks d) }
    {
        self.nulls(pages, d / node::UPPER);
        self.word_if(pages, DESC, d % node::UPPER == node::DESC);
    }

    fn nulls(&mut self, pages: &Pages, said: u32)
        ensures { Wrote pages.now self.old self.new (nulls_toks said) }
    {
        match said {
            node::FIRST => self.words(pages, NULLS, FIRST),
            node::LAST => self.words(pages, NULLS, LAST),
            _ => {}
        }
    }

    // A word and an expression, or nothing.
    #[cycle(spelling)]
    fn clause(&mut self, pages: &Pages, i: u32, kind: u32)
        requires { Maybe an_expr (nodes_of pages.now) i }
        ensures { Writ (may_toks an_expr (tok kind ∷ [])) pages.now self.old self.new i }
    {
        if pages.code(i) == node::ABSENT {
            return;
        }
        self.expr(pages, i, ANY);
        self.word(pages, kind);
    }

    // GROUP or ORDER, BY and a list; nothing where there is none, or none of its members (HAVING alone).
    #[cycle(spelling)]
    fn by(&mut self, pages: &Pages, i: u32, kind: u32)
        requires { Perhaps (nodes_of pages.now) i }
        ensures { Writ (perhaps_toks kind) pages.now self.old self.new i }
    {
        if pages.children(i) == 0 {
            return;
        }
        self.list(pages, i);
        self.words(pages, kind, BY);
    }

    // ---- queries

    #[cycle(spelling)]
    pub fn query(&mut self, pages: &Pages, i: u32)
        requires { Coded node_query (nodes_of pages.now) i }
        ensures { Writ (coded_toks node_query) pages.now self.old self.new i }
    {
        self.limit(pages, i);
        self.by(pages, pages.child(i, 2), ORDER);
        self.body(pages, pages.child(i, 3));
    }

    #[cycle(spelling)]
    fn body(&mut self, pages: &Pages, i: u32)
        requires { Whole a_body (nodes_of pages.now) i }
        ensures { Writ (node_toks a_body) pages.now self.old self.new i }
    {
        if pages.code(i) == node::SELECT {
            self.select(pages, i);
        } else {
            self.values(pages, i);
        }
    }

    #[cycle(spelling)]
    fn limit(&mut self, pages: &Pages, i: u32)
        requires { Coded node_query (nodes_of pages.now) i }
        ensures { Writ limit_toks pages.now self.old self.new i }
    {
        self.clause(pages, last(i), OFFSET);
        self.clause(pages, pages.child(i, 1), LIMIT);
    }

    #[cycle(spelling)]
    fn select(&mut self, pages: &Pages, i: u32)
        requires { Coded node_select (nodes_of pages.now) i }
        ensures { Writ (coded_toks node_select) pages.now self.old self.new i }
    {
        self.tail(pages, i);
        self.list(pages, pages.child(i, 4));
        self.selected(pages, pages.detail(i));
    }

    // SELECT [ DISTINCT ]
    fn selected(&mut self, pages: &Pages, d: u32)
        ensures { Wrote pages.now self.old self.new (selected_toks d) }
    {
        self.word_if(pages, DISTINCT, d == node::DISTINCT);
        self.word(pages, SELECT);
    }

    // FROM and what follows it.
    #[cycle(spelling)]
    fn tail(&mut self, pages: &Pages, i: u32)
        requires { Coded node_select (nodes_of pages.now) i }
        ensures { Writ tail_toks pages.now self.old self.new i }
    {
        self.group(pages, i);
        self.clause(pages, pages.child(i, 2), WHERE);
        self.from(pages, pages.child(i, 3));
    }

    // GROUP BY and HAVING.
    #[cycle(spelling)]
    fn group(&mut self, pages: &Pages, i: u32)
        requires { Coded node_select (nodes_of pages.now) i }
        ensures { Writ group_toks pages.now self.old self.new i }
    {
        self.clause(pages, last(i), HAVING);
        self.by(pages, pages.child(i, 1), GROUP);
    }

    // VALUES and its rows.
    #[cycle(spelling)]
    fn values(&mut self, pages: &Pages, i: u32)
        requires { Coded node_values (nodes_of pages.now) i }
        ensures { Writ (coded_toks node_values) pages.now self.old self.new i }
    {
        let mut j = last(i);
        for left in (0..pages.children(i)).rev() {
            self.within(pages, j);
            j = pages.before(j);
            if left > 0 {
                self.word(pages, COMMA);
            }
        }
        self.word(pages, VALUES);
    }

    // FROM, a source and joins, or nothing.
    #[cycle(spelling)]
    fn from(&mut self, pages: &Pages, i: u32)
        requires { Maybe a_from (nodes_of pages.now) i }
        ensures { Writ (bare_toks a_from) pages.now self.old self.new i }
    {
        let parts = pages.children(i);
        if parts == 0 {
            return;
        }
        let mut j = last(i);
        for _ in 0..parts {
            self.joining(pages, j);
            j = pages.before(j);
        }
        self.word(pages, FROM);
    }

    // A join, or the first source.
    #[cycle(spelling)]
    fn joining(&mut self, pages: &Pages, i: u32)
        requires { Part (nodes_of pages.now) i }
        ensures { Writ part_toks pages.now self.old self.new i }
    {
        self.constraint(pages, i);
        self.source(pages, pages.taken(i));
        self.joined(pages, i);
    }

    #[cycle(spelling)]
    fn constraint(&mut self, pages: &Pages, i: u32)
        requires { Part (nodes_of pages.now) i }
        ensures { Writ constraint_toks pages.now self.old self.new i }
    {
        if pages.code(i) == node::JOIN {
            self.on(pages, last(i));
        }
    }

    // What a join begins with; the first source has nothing before it.
    fn joined(&mut self, pages: &Pages, i: u32)
        ensures { Writ join_toks pages.now self.old self.new i }
    {
        if pages.code(i) == node::JOIN {
            self.joint(pages, pages.detail(i));
        }
    }

    // COMMA, or the fewest join words and JOIN.
    fn joint(&mut self, pages: &Pages, d: u32)
        ensures { Joining d → Wrote pages.now self.old self.new (join_of d) }
    {
        if d < node::FLAGS {
            self.word(pages, COMMA);
            return;
        }
        let w = words::fewest(d - node::FLAGS);
        self.word(pages, JOIN);
        self.join_word(pages, w.second);
        self.join_word(pages, w.first);
    }

    fn join_word(&mut self, pages: &Pages, w: Option<u32>)
        ensures { Wrote pages.now self.old self.new (join_words (option_to_list w)) }
    {
        if let Some(word) = w {
            self.put(pages, JOIN_KW, word);
        }
    }

    #[cycle(spelling)]
    fn on(&mut self, pages: &Pages, i: u32)
        requires { Maybe a_constraint (nodes_of pages.now) i }
        ensures { Writ (bare_toks a_constraint) pages.now self.old self.new i }
    {
        let c = pages.code(i);
        match c {
            node::ON => self.clause(pages, last(i), ON),
            node::USING => self.using(pages, i),
            _ => {}
        }
    }

    fn using(&mut self, pages: &Pages, i: u32)
        ensures { Writ using_toks pages.now self.old self.new i }
    {
        self.word(pages, RP);
        self.names(pages, i, COMMA);
        self.words(pages, USING, LP);
    }

    #[cycle(spelling)]
    fn source(&mut self, pages: &Pages, i: u32)
        requires { Whole a_source (nodes_of pages.now) i }
        ensures { Writ (node_toks a_source) pages.now self.old self.new i }
    {
        if pages.code(i) == node::TABLE {
            self.table(pages, i);
        } else {
            self.alias(pages, last(i));
            self.within(pages, pages.child(i, 1));
        }
    }

    // [ schema DOT ] name [ AS alias ] [ INDEXED BY index, or NOT INDEXED ]
    fn table(&mut self, pages: &Pages, i: u32)
        ensures { Writ (coded_toks node_table) pages.now self.old self.new i }
    {
        self.index(pages, i);
        self.alias(pages, pages.child(i, 1));
        self.titled(pages, i);
    }

    fn titled(&mut self, pages: &Pages, i: u32)
        ensures { Writ titled_toks pages.now self.old self.new i }
    {
        self.name(pages, pages.child(i, 2));
        self.schema(pages, pages.child(i, 3));
    }

    fn schema(&mut self, pages: &Pages, i: u32)
        ensures { Writ schema_toks pages.now self.old self.new i }
    {
        if pages.code(i) == node::ABSENT {
            return;
        }
        self.word(pages, DOT);
        self.name(pages, i);
    }

    fn index(&mut self, pages: &Pages, i: u32)
        ensures { Writ index_toks pages.now self.old self.new i }
    {
        if pages.detail(i) / node::UPPER == node::NOT_INDEXED {
            self.words(pages, NOT, INDEXED);
            return;
        }
        let x = last(i);
        if pages.code(x) == node::ABSENT {
            return;
        }
        self.name(pages, x);
        self.words(pages, INDEXED, BY);
    }
}
