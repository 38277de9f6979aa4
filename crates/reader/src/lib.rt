// The reader: a list of tokens into records, or a refusal. One walker for both passes: the first, lent an
// empty table, judges and counts; the second writes.
#![tactic(auto)]

mod ask;
mod lists;
mod refusal;
mod table;

ghost use Rattle.std.specs.Prelude.{◌≡◌, ℕ, ◌+◌, ◌-◌, ◌*◌, ◌/◌, ◌<◌, ◌≤◌, min, true, List, [], ◌∷◌, ◌++◌, eqb, length, get_or};
ghost use Rattle.kinds.specs.Kinds.{STAR, AS};
ghost use Rattle.kinds.specs.Fit.{fits};
ghost use Rattle.grammar.specs.Nodes.{Rec};
ghost use Rattle.grammar.specs.Reading.{choose};
ghost use Rattle.reader.specs.declared.table.Table.{Table};
ghost use Rattle.descent.proofs.Walk.{done, bind, deeper, name_rec, name_w, close_w, dotted_w, dots_w, called_w, collate_w, alias_w, qualified_w, index_w, table_w, lent_w, nulls_w, way_w, joined_w, using_w, ended_w, expr_w, leaf_w, operand_w, ops_w, op_w, binary_w, range_w, after_w, among_w, list_w, sign_w, call_w, paren_w, sub_w, exists_w, case_w, cased_w, when_w, cast_w, query_w, body_w, tail_w, row_w, select_w, parts_w, clause_w, group_w, cols_w, col_w, from_w, joins_w, on_w, source_w, sort_w, limit_w, command_w};
ghost use Rattle.reader.specs.Laying.{Laid, Lays, Still, Fills, Later, Does, Misfit, TooDeep, one, absences, name_at, literal_text, not_null_w, all_rows_w, is_bare, begins_join, FitLists, UnfitAt};
ghost use Rattle.reader.specs.Turning.{Turned};
ghost use Rattle.reader.specs.Likes.{greatest_like};
ghost use Rattle.reader.specs.Bounds.{tokens, kinds_of, texts_of, queries_of, strength_asked, Shallow, Ready, Seen, Within, Refuses, OneOn, Opens, NullBefore, got_of, refusal_of};
ghost use Rattle.reader.specs.Answers.{number, place, Few, Plain};
ghost use Rattle.grammar.specs.Promise.{Lent, Reads};
ghost use Rattle.grammar.specs.Sizes.{WIDTH};
ghost use Rattle.kinds.specs.Strength.{strength_of, strength_table};

use ask::Ask;
use kinds::{
    ALL, AND, AS, ASC, BETWEEN, BITNOT, BLOB, BY, CASE, CAST, COLLATE, COMMA, CTIME_KW, DESC,
    DISTINCT, DOT, ELSE, END, EXISTS, FIRST, FLOAT, FROM, GROUP, HAVING, ID, IN, INDEXED, INTEGER,
    IS, ISNULL, JOIN, JOIN_KW, KWID, LAST, LIKE_KW, LIMIT, LP, MINUS, NOT, NOTNULL, NULL, NULLS,
    OFFSET, ON, ORDER, PLUS, RP, SELECT, SEMI, STAR, STRING, THEN, USING, VALUES, VARIABLE, WHEN,
    WHERE, node,
};
use lists::Lists;
pub use refusal::{Reason, Refusal};
use table::Table;

// Two cases of its own, and no Result: document 01 names the form, let .. else on Got or Refused at each call.
// Got: what a part says (the strength of an expression, the mode of an alias, the detail of a join), how many
// members it has, and where it ends.
#[derive(Clone, Copy)]
pub enum Step {
    Refused(Reason, u16),
    Got(u8, u16, u32),
}

// 01's limits, and how many numbers a record has.
const TOKENS: usize = 4096;

const LEVELS: u32 = 64;

const QUERIES: u32 = 16;

pub const WIDTH: usize = 4;

// What a column asks: an expression, or name DOT STAR besides.
const COLUMN: u32 = 0;

// What an operand leaves that no operator ends: any may go on from it.
const WHOLE: u8 = 12;

// NOT stands where this strength or a looser one is asked: so right of every binary operator, and not of a sign.
const NOT_STANDS: u32 = 10;

fn strength(lists: &Lists, kind: u32) -> u32
    ensures { result ≡ strength_of kind }
{
    kinds::strength(lists.strengths, kind)
}

// The kind at a place; 0 at the end of the list.
fn peek(lists: &Lists, at: u32) -> u32
    ensures { Seen lists.now at result }
{
    let i = at as usize;
    if i < lists.kinds.len() {
        lists.kinds[i]
    } else {
        0
    }
}

fn text(lists: &Lists, at: u32) -> u32
    requires { at < tokens lists.now }
    ensures { result ≡ get_or (texts_of lists.now) at 0 }
{
    lists.texts[at as usize]
}

// A refusal, written over a whole answer: the compiler would carry the stale rest of an answer along.
fn refused(why: Reason, at: u32) -> Step
    requires { at < 65536 }
    ensures { result ≡ refusal_of why at }
{
    let mut r = got(0, 0);
    r = Step::Refused(why, at as u16);
    r
}

// The token of this kind can't stand here: 3, or 4 at the end of the list.
fn wrong(kind: u32, at: u32) -> Step
    requires { at < 65536 }
    ensures { Refuses at result × Misfit kind at result }
{
    if kind == 0 {
        return refused(Reason::Unfinished, at);
    }
    refused(Reason::CannotFollow, at)
}

fn got(at: u32, said: u8) -> Step
    ensures { result ≡ got_of said 0 at }
{
    Step::Got(said, 0, at)
}

fn counted(at: u32, n: u32) -> Step
    requires { n < 65536 }
    ensures { result ≡ got_of 0 n at }
{
    Step::Got(0, n as u16, at)
}

// A name, of which the kind is known.
fn named(lists: &Lists, table: &mut Table, at: u32, kind: u32)
    requires { Ready 0 lists.now at table.old.made × (at < tokens lists.now) }
    ensures { (table.new.made ≡ table.old.made + 1) × (kind ≡ get_or (kinds_of lists.now) at 0 → Fills table.old table.new (name_at lists.now at)) }
{
    let code = kinds::name_code(kind).unwrap_or(node::ABSENT);
    table.emit(code, text(lists, at), 0, 1);
}

fn name(lists: &Lists, table: &mut Table, at: u32) -> Step
    requires { Ready 0 lists.now at table.old.made }
    ensures { Within 1 0 lists.now at table.old.made table.new.made result × OneOn at result × Lays table.old table.new lists.now (λ K T. name_w K T at) result }
{
    let kind = peek(lists, at);
    if !kinds::is_name(kind) {
        return wrong(kind, at);
    }
    named(lists, table, at, kind);
    got(at + 1, 0)
}

// Expects RP, and closes over n children with a record.
fn close(lists: &Lists, table: &mut Table, at: u32, base: u32, code: u32, n: u32) -> Step
    requires { Ready 0 lists.now at table.old.made × (base ≤ table.old.made) }
    ensures { Within 1 0 lists.now at table.old.made table.new.made result × ((pre : ℕ) → table.old.made ≡ base + pre → Lays table.old table.new lists.now (λ K T. close_w K T at code 0 n pre) result) }
{
    let kind = peek(lists, at);
    if kind != RP {
        return wrong(kind, at);
    }
    table.emit(code, 0, n, table.made - base + 1);
    got(at + 1, WHOLE)
}

// ---- expressions

fn literal_text(lists: &Lists, at: u32, kind: u32) -> u32
    requires { at < tokens lists.now }
    ensures { result ≡ literal_text lists.now at kind }
{
    if kind == NULL {
        return 0;
    }
    text(lists, at)
}

// Through a function of its own, which is taken into each caller: so the places of its answer are shared there, and frames are small.
#[cycle(walk)]
fn expr(lists: &Lists, table: &mut Table, at: u32, ask: Ask) -> Step
    requires { Ready 0 lists.now at table.old.made }
    ensures { Within 1 0 lists.now at table.old.made table.new.made result × ((s : ℕ) → Does s ask table.old table.new lists.now (λ K T f c. expr_w K T f at c s) result) }
{
    ex(lists, table, at, ask)
}

// An operand, and the operators that go on from it.
#[cycle(walk)]
fn ex(lists: &Lists, table: &mut Table, at: u32, ask: Ask) -> Step
    requires { Ready 0 lists.now at table.old.made }
    ensures { Within 1 0 lists.now at table.old.made table.new.made result × ((s : ℕ) → Does s ask table.old table.new lists.now (λ K T f c. expr_w K T f at c s) result) }
{
    let base = table.made;
    let kind = peek(lists, at);
    if ask.level() > LEVELS {
        return too_deep(kind, at, ask);
    }
    let first = match kind {
        ID..=NULL => leaf(lists, table, at, kind, ask),
        _ => operand(lists, table, at, kind, ask),
    };
    let Step::Got(s_d, _, d) = first else {
        return first;
    };
    ops(lists, table, d, base, s_d as u32, ask)
}

#[cycle(walk)]
fn leaf(lists: &Lists, table: &mut Table, at: u32, kind: u32, ask: Ask) -> Step
    requires { Ready 0 lists.now at table.old.made × Shallow ask × (at < tokens lists.now) × Seen lists.now at kind × (0 < kind) × (kind ≤ 11) }
    ensures { Within 1 0 lists.now at table.old.made table.new.made result × ((s : ℕ) → Does s ask table.old table.new lists.now (λ K T f c. leaf_w K T f at c s) result) }
{
    if let Some(code) = kinds::literal_code(kind) {
        table.emit(code, literal_text(lists, at, kind), 0, 1);
        return got(at + 1, WHOLE);
    }
    named(lists, table, at, kind);
    let next = peek(lists, at + 1);
    if next == LP {
        if kind != INDEXED {
            return call(lists, table, at + 2, ask.deeper(1));
        }
    }
    dotted(lists, table, at + 1, next, ask.strength())
}

#[cycle(walk)]
fn operand(lists: &Lists, table: &mut Table, at: u32, kind: u32, ask: Ask) -> Step
    requires { Ready 0 lists.now at table.old.made × Shallow ask × Seen lists.now at kind }
    ensures { Within 1 0 lists.now at table.old.made table.new.made result × ((s : ℕ) → Does s ask table.old table.new lists.now (λ K T f c. operand_w K T f at c s) result) }
{
    match kind {
        LP => paren(lists, table, at + 1, ask.deeper(1)),
        CASE => case(lists, table, at + 1, ask.deeper(1)),
        CAST => cast(lists, table, at + 1, ask.deeper(1)),
        EXISTS => exists(lists, table, at + 1, ask.deeper(1)),
        NOT | PLUS | MINUS | BITNOT => sign(lists, table, at, kind, ask),
        _ => wrong(kind, at),
    }
}

// 5, but 3 goes before it.
fn too_deep(kind: u32, at: u32, ask: Ask) -> Step
    requires { at < 65536 }
    ensures { Refuses at result × TooDeep kind (strength_asked ask) at result }
{
    if !kinds::begins_expr(kind) {
        return wrong(kind, at);
    }
    if kind == NOT {
        if ask.strength() > NOT_STANDS {
            return wrong(kind, at);
        }
    }
    Step::Refused(Reason::TooDeep, at as u16)
}

// The operators that go on from an operand that leaves `first`: the tightest of them that may.
#[cycle(walk)]
fn ops(lists: &Lists, table: &mut Table, from: u32, base: u32, first: u32, ask: Ask) -> Step
    requires { Ready 0 lists.now from table.old.made × Shallow ask × (base ≤ table.old.made) × (first ≤ 127) }
    ensures { Within 0 0 lists.now from table.old.made table.new.made result × ((s pre : ℕ) → table.old.made ≡ base + pre → Does s ask table.old table.new lists.now (λ K T f c. ops_w K T f from c s first pre) result) }
{
    let s = ask.strength();
    let mut at = from;
    let mut left = first;
    loop {
        let kind = peek(lists, at);
        let k = strength(lists, kind);
        if k == 0 {
            break;
        }
        if k < s {
            break;
        }
        if left < k {
            break;
        }
        let r = op(lists, table, at, base, kind, ask.deeper(k + 1));
        let Step::Got(said, _, d) = r else {
            return r;
        };
        at = d;
        // No more than its own strength, nor than its right operand leaves.
        left = k.min(said as u32);
    }
    got(at, left as u8)
}

#[cycle(walk)]
fn op(lists: &Lists, table: &mut Table, at: u32, base: u32, kind: u32, ask: Ask) -> Step
    requires { Ready 0 lists.now at table.old.made × (base ≤ table.old.made) × Seen lists.now at kind × (0 < kind) }
    ensures { Within 1 0 lists.now at table.old.made table.new.made result × ((s pre : ℕ) → table.old.made ≡ base + pre → Does s ask table.old table.new lists.now (λ K T f c. op_w K T f at c s pre) result) }
{
    if kind < NOT {
        return binary(lists, table, at + 1, base, kind, ask);
    }
    let not: u32 = if kind == NOT { 1 } else { 0 };
    let word = if kind == NOT {
        peek(lists, at + 1)
    } else {
        kind
    };
    let next = at + not + 1;
    match word {
        IN => among(lists, table, next, base, not, ask),
        BETWEEN => range(lists, table, next, base, not, ask),
        LIKE_KW => binary(
            lists,
            table,
            next,
            base,
            node::LIKE + node::WORDS * not + text(lists, at + not),
            ask,
        ),
        _ => {
            if not == 1 {
                return notnull(table, next, base, word);
            }
            match kind {
                IS => {
                    let isnot: u32 = if peek(lists, next) == NOT { 1 } else { 0 };
                    binary(
                        lists,
                        table,
                        next + isnot,
                        base,
                        IS + node::WORDS * isnot,
                        ask,
                    )
                }
                COLLATE => collate(lists, table, next, base),
                _ => {
                    table.emit(node::NULL_TEST, kind, 1, table.made - base + 1);
                    got(next, WHOLE)
                }
            }
        }
    }
}

fn notnull(table: &mut Table, next: u32, base: u32, word: u32) -> Step
    requires { (0 < next) × (next < 65536) × (table.old.made < 65536) × (base ≤ table.old.made) }
    ensures { NullBefore next table.old.made table.new.made word result × ((pre : ℕ) → table.old.made ≡ base + pre → Laid table.old table.new (not_null_w word next (next - 1) pre) result) }
{
    if word != NULL {
        return wrong(word, next - 1);
    }
    table.emit(node::NULL_TEST, NOTNULL, 1, table.made - base + 1);
    got(next, WHOLE)
}

#[cycle(walk)]
fn binary(lists: &Lists, table: &mut Table, at: u32, base: u32, detail: u32, ask: Ask) -> Step
    requires { Ready 1 lists.now at table.old.made × (base ≤ table.old.made) }
    ensures { Within 1 1 lists.now at table.old.made table.new.made result × ((s pre : ℕ) → table.old.made ≡ base + pre → Does s ask table.old table.new lists.now (λ K T f c. binary_w K T f at c s detail pre) result) }
{
    let r = expr(lists, table, at, ask);
    let Step::Got(said, _, d) = r else {
        return r;
    };
    table.emit(node::BINARY, detail, 2, table.made - base + 1);
    got(d, said)
}

fn collate(lists: &Lists, table: &mut Table, at: u32, base: u32) -> Step
    requires { Ready 1 lists.now at table.old.made × (base ≤ table.old.made) }
    ensures { Within 1 1 lists.now at table.old.made table.new.made result × ((pre : ℕ) → table.old.made ≡ base + pre → Lays table.old table.new lists.now (λ K T. collate_w K T at pre) result) }
{
    let r = name(lists, table, at);
    let Step::Got(_, _, d) = r else {
        return r;
    };
    table.emit(node::COLLATE, 0, 2, table.made - base + 1);
    got(d, WHOLE)
}

#[cycle(walk)]
fn range(lists: &Lists, table: &mut Table, at: u32, base: u32, not: u32, ask: Ask) -> Step
    requires { Ready 1 lists.now at table.old.made × (base ≤ table.old.made) }
    ensures { Within 1 1 lists.now at table.old.made table.new.made result × ((s pre : ℕ) → table.old.made ≡ base + pre → Does s ask table.old table.new lists.now (λ K T f c. range_w K T f at c s not pre) result) }
{
    let low = expr(lists, table, at, ask);
    let Step::Got(_, _, c) = low else {
        return low;
    };
    let high = after(lists, table, c, AND, ask);
    let Step::Got(said, _, e) = high else {
        return high;
    };
    table.emit(node::BETWEEN, not, 3, table.made - base + 1);
    got(e, said)
}

// A word, and an expression.
#[cycle(walk)]
fn after(lists: &Lists, table: &mut Table, at: u32, word: u32, ask: Ask) -> Step
    requires { Ready 0 lists.now at table.old.made × (0 < word) }
    ensures { Within 1 0 lists.now at table.old.made table.new.made result × ((s : ℕ) → Does s ask table.old table.new lists.now (λ K T f c. after_w K T f at word c s) result) }
{
    let kind = peek(lists, at);
    if kind != word {
        return wrong(kind, at);
    }
    expr(lists, table, at + 1, ask)
}

// After IN.
#[cycle(walk)]
fn among(lists: &Lists, table: &mut Table, at: u32, base: u32, not: u32, ask: Ask) -> Step
    requires { Ready 0 lists.now at table.old.made × (base ≤ table.old.made) }
    ensures { Within 1 0 lists.now at table.old.made table.new.made result × ((s pre : ℕ) → table.old.made ≡ base + pre → Does s ask table.old table.new lists.now (λ K T f c. among_w K T f at c not pre) result) }
{
    let lp = peek(lists, at);
    if lp != LP {
        return wrong(lp, at);
    }
    let kind = peek(lists, at + 1);
    match kind {
        SELECT | VALUES => {
            let q = query(lists, table, at + 1, ask.with(0));
            let Step::Got(_, _, d) = q else {
                return q;
            };
            ended(lists, table, d, base, node::IN_QUERY, not)
        }
        RP => {
            table.emit(node::LIST, 0, 0, 1);
            ended(lists, table, at + 1, base, node::IN_LIST, not)
        }
        _ => {
            let start = table.made;
            let l = list(lists, table, at + 1, ask.with(1));
            let Step::Got(_, n_d, d) = l else {
                return l;
            };
            table.emit(node::LIST, 0, n_d as u32, table.made - start + 1);
            ended(lists, table, d, base, node::IN_LIST, not)
        }
    }
}

// RP of IN.
fn ended(lists: &Lists, table: &mut Table, at: u32, base: u32, code: u32, not: u32) -> Step
    requires { Ready 0 lists.now at table.old.made × (base ≤ table.old.made) }
    ensures { Within 1 0 lists.now at table.old.made table.new.made result × ((pre : ℕ) (t : Table) (rs : List Rec) → t.made ≡ base + pre → Fills t table.old rs → Lays t table.new lists.now (λ K T. ended_w K T at code not pre rs) result) }
{
    let kind = peek(lists, at);
    if kind != RP {
        return wrong(kind, at);
    }
    table.emit(code, not, 2, table.made - base + 1);
    got(at + 1, WHOLE)
}

// { expression , }: says how many.
#[cycle(walk)]
fn list(lists: &Lists, table: &mut Table, from: u32, ask: Ask) -> Step
    requires { Ready 0 lists.now from table.old.made }
    ensures { Within 1 0 lists.now from table.old.made table.new.made result × Does 1 ask table.old table.new lists.now (λ K T f c. list_w K T f from c 0) result }
{
    let mut at = from;
    let mut n: u32 = 0;
    loop {
        let r = expr(lists, table, at, ask);
        let Step::Got(_, _, d) = r else {
            return r;
        };
        n += 1;
        at = d;
        let kind = peek(lists, at);
        if kind != COMMA {
            break;
        }
        at += 1;
    }
    counted(at, n)
}

#[cycle(walk)]
fn sign(lists: &Lists, table: &mut Table, at: u32, kind: u32, ask: Ask) -> Step
    requires { Ready 0 lists.now at table.old.made × Shallow ask × (at < tokens lists.now) × Seen lists.now at kind }
    ensures { Within 1 0 lists.now at table.old.made table.new.made result × ((s : ℕ) → Does s ask table.old table.new lists.now (λ K T f c. sign_w K T f at c s) result) }
{
    let base = table.made;
    let p = kinds::prefix(kind);
    if kind == NOT {
        if ask.strength() > NOT_STANDS {
            return wrong(kind, at);
        }
    }
    let r = expr(lists, table, at + 1, ask.deeper(p));
    let Step::Got(said, _, d) = r else {
        return r;
    };
    table.emit(node::PREFIX, kind, 1, table.made - base + 1);
    got(d, p.min(said as u32) as u8)
}

// A call, or up to three names; in a column, name DOT STAR.
fn dotted(lists: &Lists, table: &mut Table, at: u32, kind: u32, s: u32) -> Step
    requires { Ready 1 lists.now at table.old.made × Seen lists.now at kind }
    ensures { Within 0 1 lists.now at table.old.made table.new.made result × Lays table.old table.new lists.now (λ K T. dotted_w K T at s) result }
{
    if kind != DOT {
        table.emit(node::NAMES, 0, 1, 2);
        return got(at, WHOLE);
    }
    if s == COLUMN {
        if peek(lists, at + 1) == STAR {
            table.emit(node::NAME_STAR, 0, 1, 2);
            return got(at + 2, 0);
        }
    }
    dots(lists, table, at)
}

// DOT name [ DOT name ] after a name, and the record over them.
fn dots(lists: &Lists, table: &mut Table, at: u32) -> Step
    requires { Ready 0 lists.now at table.old.made × (at < tokens lists.now) }
    ensures { Within 1 0 lists.now at table.old.made table.new.made result × Lays table.old table.new lists.now (λ K T. dots_w K T at) result }
{
    let r = name(lists, table, at + 1);
    let Step::Got(_, _, c) = r else {
        return r;
    };
    let next = peek(lists, c);
    if next != DOT {
        table.emit(node::NAMES, 0, 2, 3);
        return got(c, WHOLE);
    }
    let q = name(lists, table, c + 1);
    let Step::Got(_, _, d) = q else {
        return q;
    };
    table.emit(node::NAMES, 0, 3, 4);
    got(d, WHOLE)
}

// After LP of a call, whose name is the last record.
#[cycle(walk)]
fn call(lists: &Lists, table: &mut Table, at: u32, ask: Ask) -> Step
    requires { Ready 0 lists.now at table.old.made }
    ensures { Within 1 0 lists.now at table.old.made table.new.made result × Does 1 ask table.old table.new lists.now (λ K T f c. call_w K T f at c) result }
{
    let base = table.made;
    let kind = peek(lists, at);
    if is_bare(kind) {
        return bare(lists, table, at, kind);
    }
    let distinct: u32 = if kind == DISTINCT { 1 } else { 0 };
    let r = list(lists, table, at + distinct, ask);
    let Step::Got(_, n_c, c) = r else {
        return r;
    };
    called(lists, table, c, base, distinct, n_c as u32)
}

// No argument, or STAR.
fn is_bare(kind: u32) -> bool
    ensures { result ≡ is_bare kind }
{
    matches!(kind, RP | STAR)
}

fn bare(lists: &Lists, table: &mut Table, at: u32, kind: u32) -> Step
    requires { Ready 0 lists.now at table.old.made × Seen lists.now at kind }
    ensures { Within 1 0 lists.now at table.old.made table.new.made result × Lays table.old table.new lists.now (λ K T. choose (eqb kind STAR) (called_w K T (at + 1) 2 0 []) (called_w K T at 0 0 [])) result }
{
    if kind == STAR {
        return called(lists, table, at + 1, table.made, 2, 0);
    }
    called(lists, table, at, table.made, 0, 0)
}

fn called(lists: &Lists, table: &mut Table, at: u32, base: u32, detail: u32, n: u32) -> Step
    requires { Ready 0 lists.now at table.old.made × (base ≤ table.old.made) }
    ensures { Within 1 0 lists.now at table.old.made table.new.made result × ((t : Table) (rs : List Rec) → t.made ≡ base → Fills t table.old rs → Lays t table.new lists.now (λ K T. called_w K T at detail n rs) result) }
{
    let kind = peek(lists, at);
    if kind != RP {
        return wrong(kind, at);
    }
    table.emit(node::LIST, 0, n, table.made - base + 1);
    table.emit(node::CALL, detail, 2, table.made - base + 2);
    got(at + 1, WHOLE)
}

// After LP: ( query ) or ( expressions ).
#[cycle(walk)]
fn paren(lists: &Lists, table: &mut Table, at: u32, ask: Ask) -> Step
    requires { Ready 4 lists.now at table.old.made }
    ensures { Within 1 4 lists.now at table.old.made table.new.made result × Does 1 ask table.old table.new lists.now (λ K T f c. paren_w K T f at c) result }
{
    let base = table.made;
    let kind = peek(lists, at);
    match kind {
        SELECT | VALUES => sub(lists, table, at, node::SUBQUERY, ask),
        _ => {
            let l = list(lists, table, at, ask);
            let Step::Got(_, n_d, d) = l else {
                return l;
            };
            close(lists, table, d, base, node::PARENS, n_d as u32)
        }
    }
}

#[cycle(walk)]
fn sub(lists: &Lists, table: &mut Table, at: u32, code: u32, ask: Ask) -> Step
    requires { Ready 4 lists.now at table.old.made }
    ensures { Within 1 4 lists.now at table.old.made table.new.made result × Does 1 ask table.old table.new lists.now (λ K T f c. sub_w K T f at c code) result }
{
    let base = table.made;
    let q = query(lists, table, at, ask.with(0));
    let Step::Got(_, _, d) = q else {
        return q;
    };
    close(lists, table, d, base, code, 1)
}

#[cycle(walk)]
fn exists(lists: &Lists, table: &mut Table, at: u32, ask: Ask) -> Step
    requires { Ready 0 lists.now at table.old.made }
    ensures { Within 1 0 lists.now at table.old.made table.new.made result × Does 1 ask table.old table.new lists.now (λ K T f c. exists_w K T f at c) result }
{
    let kind = peek(lists, at);
    if kind != LP {
        return wrong(kind, at);
    }
    sub(lists, table, at + 1, node::EXISTS, ask)
}

// After CASE.
#[cycle(walk)]
fn case(lists: &Lists, table: &mut Table, at: u32, ask: Ask) -> Step
    requires { Ready 2 lists.now at table.old.made }
    ensures { Within 1 2 lists.now at table.old.made table.new.made result × Does 1 ask table.old table.new lists.now (λ K T f c. case_w K T f at c) result }
{
    let base = table.made;
    let b = cased(lists, table, at, ask);
    let Step::Got(_, _, c) = b else {
        return b;
    };
    let w = when(lists, table, c, ask);
    let Step::Got(_, n_d, d) = w else {
        return w;
    };
    let e = clause(lists, table, d, ELSE, ask);
    let Step::Got(_, _, f) = e else {
        return e;
    };
    let end = peek(lists, f);
    if end != END {
        return wrong(end, f);
    }
    table.emit(node::CASE, 0, n_d as u32 + 2, table.made - base + 1);
    got(f + 1, WHOLE)
}

#[cycle(walk)]
fn cased(lists: &Lists, table: &mut Table, at: u32, ask: Ask) -> Step
    requires { Ready 1 lists.now at table.old.made }
    ensures { Within 0 1 lists.now at table.old.made table.new.made result × Does 1 ask table.old table.new lists.now (λ K T f c. cased_w K T f at c) result }
{
    let kind = peek(lists, at);
    if kind == WHEN {
        table.absent(1);
        return got(at, 0);
    }
    expr(lists, table, at, ask)
}

// WHEN expression THEN expression, once or more: says how many expressions.
#[cycle(walk)]
fn when(lists: &Lists, table: &mut Table, from: u32, ask: Ask) -> Step
    requires { Ready 0 lists.now from table.old.made }
    ensures { Within 1 0 lists.now from table.old.made table.new.made result × Does 1 ask table.old table.new lists.now (λ K T f c. when_w K T f from c 0) result }
{
    let mut at = from;
    let mut n: u32 = 0;
    loop {
        let w = after(lists, table, at, WHEN, ask);
        let Step::Got(_, _, c) = w else {
            return w;
        };
        let t = after(lists, table, c, THEN, ask);
        let Step::Got(_, _, d) = t else {
            return t;
        };
        at = d;
        n += 2;
        let kind = peek(lists, at);
        if kind != WHEN {
            break;
        }
    }
    counted(at, n)
}

// After CAST.
#[cycle(walk)]
fn cast(lists: &Lists, table: &mut Table, at: u32, ask: Ask) -> Step
    requires { Ready 0 lists.now at table.old.made }
    ensures { Within 1 0 lists.now at table.old.made table.new.made result × Does 1 ask table.old table.new lists.now (λ K T f c. cast_w K T f at c) result }
{
    let base = table.made;
    let e = after(lists, table, at, LP, ask);
    let Step::Got(_, _, c) = e else {
        return e;
    };
    let kind = peek(lists, c);
    if kind != AS {
        return wrong(kind, c);
    }
    let n = name(lists, table, c + 1);
    let Step::Got(_, _, f) = n else {
        return n;
    };
    close(lists, table, f, base, node::CAST, 2)
}

// ---- queries

#[cycle(walk)]
fn query(lists: &Lists, table: &mut Table, at: u32, ask: Ask) -> Step
    requires { Ready 4 lists.now at table.old.made × (strength_asked ask ≡ 0) }
    ensures { Within 1 4 lists.now at table.old.made table.new.made result × Does 0 ask table.old table.new lists.now (λ K T f c. query_w K T f at c) result }
{
    let base = table.made;
    let b = body(lists, table, at, ask);
    let Step::Got(_, _, c) = b else {
        return b;
    };
    let t = tail(lists, table, c, ask.opened());
    let Step::Got(_, _, d) = t else {
        return t;
    };
    table.emit(node::QUERY, 0, 4, table.made - base + 1);
    got(d, 0)
}

#[cycle(walk)]
fn body(lists: &Lists, table: &mut Table, at: u32, ask: Ask) -> Step
    requires { Ready 0 lists.now at table.old.made × (strength_asked ask ≡ 0) }
    ensures { Within 1 0 lists.now at table.old.made table.new.made result × Opens ask result × Does 0 ask table.old table.new lists.now (λ K T f c. body_w K T f at c) result }
{
    let kind = peek(lists, at);
    if kind == SELECT {
        if ask.queries() >= QUERIES {
            return Step::Refused(Reason::TooManyQueries, at as u16);
        }
        return select(lists, table, at + 1, ask.opened());
    }
    if kind == VALUES {
        if ask.queries() >= QUERIES {
            return Step::Refused(Reason::TooManyQueries, at as u16);
        }
        return rows(lists, table, at + 1, ask.opened());
    }
    wrong(kind, at)
}

// ORDER BY and LIMIT.
#[cycle(walk)]
fn tail(lists: &Lists, table: &mut Table, at: u32, ask: Ask) -> Step
    requires { Ready 3 lists.now at table.old.made }
    ensures { Within 0 3 lists.now at table.old.made table.new.made result × Does 1 ask table.old table.new lists.now (λ K T f c. tail_w K T f at c) result }
{
    let kind = peek(lists, at);
    match kind {
        ORDER => {
            let o = sort(lists, table, at + 1, ask);
            let Step::Got(_, _, d) = o else {
                return o;
            };
            limit(lists, table, d, ask)
        }
        LIMIT => {
            table.absent(1);
            limit(lists, table, at, ask)
        }
        _ => {
            table.absent(3);
            got(at, 0)
        }
    }
}

// After VALUES: rows of one length.
#[cycle(walk)]
fn rows(lists: &Lists, table: &mut Table, from: u32, ask: Ask) -> Step
    requires { Ready 1 lists.now from table.old.made }
    ensures { Within 1 1 lists.now from table.old.made table.new.made result × Does 1 ask table.old table.new lists.now (λ K T f c. all_rows_w K T f from c) result }
{
    let base = table.made;
    let mut at = from;
    let mut rows: u32 = 0;
    let mut width: u32 = 0;
    loop {
        let r = row(lists, table, at, width, ask);
        let Step::Got(_, n_d, d) = r else {
            return r;
        };
        width = n_d as u32;
        rows += 1;
        at = d;
        let kind = peek(lists, at);
        if kind != COMMA {
            break;
        }
        at += 1;
    }
    table.emit(node::VALUES, 0, rows, table.made - base + 1);
    got(at, 0)
}

// ( expressions ), as many as `width` unless that is 0: says how many.
#[cycle(walk)]
fn row(lists: &Lists, table: &mut Table, at: u32, width: u32, ask: Ask) -> Step
    requires { Ready 0 lists.now at table.old.made }
    ensures { Within 1 0 lists.now at table.old.made table.new.made result × Does 1 ask table.old table.new lists.now (λ K T f c. row_w K T f at c width) result }
{
    let base = table.made;
    let lp = peek(lists, at);
    if lp != LP {
        return wrong(lp, at);
    }
    let r = list(lists, table, at + 1, ask);
    let Step::Got(_, n_d, d) = r else {
        return r;
    };
    let rp = peek(lists, d);
    if rp != RP {
        return wrong(rp, d);
    }
    let n = n_d as u32;
    if width > 0 {
        if n != width {
            return Step::Refused(Reason::RowLength, d as u16);
        }
    }
    table.emit(node::LIST, 0, n, table.made - base + 1);
    counted(d + 1, n)
}

// After SELECT.
#[cycle(walk)]
fn select(lists: &Lists, table: &mut Table, at: u32, ask: Ask) -> Step
    requires { Ready 8 lists.now at table.old.made }
    ensures { Within 1 8 lists.now at table.old.made table.new.made result × Does 1 ask table.old table.new lists.now (λ K T f c. select_w K T f at c) result }
{
    let base = table.made;
    let kind = peek(lists, at);
    let detail: u32 = match kind {
        DISTINCT => 1,
        ALL => 2,
        _ => 0,
    };
    let word: u32 = if detail > 0 { 1 } else { 0 };
    let l = cols(lists, table, at + word, ask);
    let Step::Got(_, n_c, c) = l else {
        return l;
    };
    table.emit(node::LIST, 0, n_c as u32, table.made - base + 1);
    let f = parts(lists, table, c, ask);
    let Step::Got(_, _, d) = f else {
        return f;
    };
    table.emit(node::SELECT, detail, 5, table.made - base + 1);
    got(d, 0)
}

// FROM, WHERE, GROUP BY, HAVING.
#[cycle(walk)]
fn parts(lists: &Lists, table: &mut Table, at: u32, ask: Ask) -> Step
    requires { Ready 4 lists.now at table.old.made }
    ensures { Within 0 4 lists.now at table.old.made table.new.made result × Does 1 ask table.old table.new lists.now (λ K T f c. parts_w K T f at c) result }
{
    let kind = peek(lists, at);
    match kind {
        FROM | WHERE | GROUP | HAVING => {
            let f = from(lists, table, at, kind, ask);
            let Step::Got(_, _, d) = f else {
                return f;
            };
            let w = clause(lists, table, d, WHERE, ask);
            let Step::Got(_, _, e) = w else {
                return w;
            };
            group(lists, table, e, ask)
        }
        _ => {
            table.absent(4);
            got(at, 0)
        }
    }
}

// An optional clause of a word and an expression.
#[cycle(walk)]
fn clause(lists: &Lists, table: &mut Table, at: u32, word: u32, ask: Ask) -> Step
    requires { Ready 1 lists.now at table.old.made × (0 < word) }
    ensures { Within 0 1 lists.now at table.old.made table.new.made result × Does 1 ask table.old table.new lists.now (λ K T f c. clause_w K T f at word c) result }
{
    let kind = peek(lists, at);
    if kind == word {
        return expr(lists, table, at + 1, ask);
    }
    table.absent(1);
    got(at, 0)
}

// GROUP BY and HAVING.
#[cycle(walk)]
fn group(lists: &Lists, table: &mut Table, at: u32, ask: Ask) -> Step
    requires { Ready 2 lists.now at table.old.made }
    ensures { Within 0 2 lists.now at table.old.made table.new.made result × Does 1 ask table.old table.new lists.now (λ K T f c. group_w K T f at c) result }
{
    let kind = peek(lists, at);
    match kind {
        GROUP => {
            let by = peek(lists, at + 1);
            if by != BY {
                return wrong(by, at + 1);
            }
            let base = table.made;
            let r = list(lists, table, at + 2, ask);
            let Step::Got(_, n_d, d) = r else {
                return r;
            };
            table.emit(node::LIST, 0, n_d as u32, table.made - base + 1);
            clause(lists, table, d, HAVING, ask)
        }
        HAVING => {
            table.emit(node::LIST, 0, 0, 1);
            expr(lists, table, at + 1, ask)
        }
        _ => {
            table.absent(2);
            got(at, 0)
        }
    }
}

// Says how many.
#[cycle(walk)]
fn cols(lists: &Lists, table: &mut Table, from: u32, ask: Ask) -> Step
    requires { Ready 2 lists.now from table.old.made }
    ensures { Within 1 2 lists.now from table.old.made table.new.made result × Does 1 ask table.old table.new lists.now (λ K T f c. cols_w K T f from c 0) result }
{
    let mut at = from;
    let mut n: u32 = 0;
    loop {
        let r = col(lists, table, at, ask);
        let Step::Got(_, _, d) = r else {
            return r;
        };
        at = d;
        n += 1;
        let kind = peek(lists, at);
        if kind != COMMA {
            break;
        }
        at += 1;
    }
    counted(at, n)
}

#[cycle(walk)]
fn col(lists: &Lists, table: &mut Table, at: u32, ask: Ask) -> Step
    requires { Ready 2 lists.now at table.old.made }
    ensures { Within 1 2 lists.now at table.old.made table.new.made result × Does 1 ask table.old table.new lists.now (λ K T f c. col_w K T f at c) result }
{
    let base = table.made;
    let kind = peek(lists, at);
    if kind == STAR {
        table.emit(node::STAR, 0, 0, 1);
        return got(at + 1, 0);
    }
    let r = expr(lists, table, at, ask.with(COLUMN));
    let Step::Got(s_d, _, d) = r else {
        return r;
    };
    if s_d == 0 {
        return r;
    }
    let a = alias(lists, table, d);
    let Step::Got(s_e, _, e) = a else {
        return a;
    };
    table.emit(node::COLUMN, s_e as u32, 2, table.made - base + 1);
    got(e, 0)
}

// Says the mode: 0 none, 1 AS, 2 bare.
fn alias(lists: &Lists, table: &mut Table, at: u32) -> Step
    requires { Ready 1 lists.now at table.old.made }
    ensures { Within 0 1 lists.now at table.old.made table.new.made result × Lays table.old table.new lists.now (λ K T. alias_w K T at) result }
{
    let kind = peek(lists, at);
    match kind {
        AS | ID | KWID | STRING => renamed(lists, table, at, kind),
        _ => {
            table.absent(1);
            got(at, 0)
        }
    }
}

fn renamed(lists: &Lists, table: &mut Table, at: u32, kind: u32) -> Step
    requires { Ready 0 lists.now at table.old.made × (at < tokens lists.now) }
    ensures { Within 1 0 lists.now at table.old.made table.new.made result × (Seen lists.now at kind → Lays table.old table.new lists.now (λ K T. choose (eqb kind AS) (bind (name_w K T (at + 1)) (λ a s n rs. done a 1 0 rs)) (done (at + 1) 2 0 (name_rec K T at ∷ []))) result) }
{
    if kind == AS {
        let r = name(lists, table, at + 1);
        let Step::Got(_, _, d) = r else {
            return r;
        };
        return got(d, 1);
    }
    named(lists, table, at, kind);
    got(at + 1, 2)
}

#[cycle(walk)]
fn from(lists: &Lists, table: &mut Table, at: u32, kind: u32, ask: Ask) -> Step
    requires { Ready 1 lists.now at table.old.made × Seen lists.now at kind }
    ensures { Within 0 1 lists.now at table.old.made table.new.made result × Does 1 ask table.old table.new lists.now (λ K T f c. from_w K T f at c) result }
{
    let base = table.made;
    if kind != FROM {
        table.absent(1);
        return got(at, 0);
    }
    let s = source(lists, table, at + 1, ask);
    let Step::Got(_, _, c) = s else {
        return s;
    };
    let j = joins(lists, table, c, ask);
    let Step::Got(_, n_d, d) = j else {
        return j;
    };
    table.emit(node::FROM, 0, n_d as u32 + 1, table.made - base + 1);
    got(d, 0)
}

// Says how many.
#[cycle(walk)]
fn joins(lists: &Lists, table: &mut Table, from: u32, ask: Ask) -> Step
    requires { Ready 0 lists.now from table.old.made }
    ensures { Within 0 0 lists.now from table.old.made table.new.made result × Does 1 ask table.old table.new lists.now (λ K T f c. joins_w K T f from c 0) result }
{
    let mut at = from;
    let mut n: u32 = 0;
    loop {
        let kind = peek(lists, at);
        if !begins_join(kind) {
            break;
        }
        let j = joined(lists, at, kind);
        let Step::Got(s_c, _, c) = j else {
            return j;
        };
        let base = table.made;
        let s = source(lists, table, c, ask);
        let Step::Got(_, _, d) = s else {
            return s;
        };
        let o = on(lists, table, d, ask);
        let Step::Got(_, _, e) = o else {
            return o;
        };
        table.emit(node::JOIN, s_c as u32, 2, table.made - base + 1);
        at = e;
        n += 1;
    }
    counted(at, n)
}

fn begins_join(kind: u32) -> bool
    ensures { result ≡ begins_join kind }
{
    matches!(kind, COMMA | JOIN | JOIN_KW)
}

// COMMA, or up to three join words and JOIN: says the join's detail.
fn joined(lists: &Lists, from: u32, first: u32) -> Step
    requires { Ready 0 lists.now from 0 × Seen lists.now from first }
    ensures { Within 1 0 lists.now from 0 0 result × Still lists.now (λ K T. joined_w K T from) result }
{
    if first == COMMA {
        return got(from + 1, 0);
    }
    let mut at = from;
    let mut flags: u32 = 0;
    let mut words: u32 = 0;
    loop {
        let kind = peek(lists, at);
        if kind == JOIN {
            break;
        }
        if kind != JOIN_KW {
            return wrong(kind, at);
        }
        if words == 3 {
            return wrong(kind, at);
        }
        flags = words::united(flags, words::flags(text(lists, at)));
        words += 1;
        at += 1;
    }
    if !words::legal(flags) {
        return Step::Refused(Reason::JoinFlags, at as u16);
    }
    got(at + 1, (node::FLAGS + flags) as u8)
}

// ON or USING, or nothing.
#[cycle(walk)]
fn on(lists: &Lists, table: &mut Table, at: u32, ask: Ask) -> Step
    requires { Ready 1 lists.now at table.old.made }
    ensures { Within 0 1 lists.now at table.old.made table.new.made result × Does 1 ask table.old table.new lists.now (λ K T f c. on_w K T f at c) result }
{
    let kind = peek(lists, at);
    match kind {
        ON => {
            let base = table.made;
            let r = expr(lists, table, at + 1, ask);
            let Step::Got(_, _, d) = r else {
                return r;
            };
            table.emit(node::ON, 0, 1, table.made - base + 1);
            got(d, 0)
        }
        USING => using(lists, table, at + 1),
        _ => {
            table.absent(1);
            got(at, 0)
        }
    }
}

// After USING.
fn using(lists: &Lists, table: &mut Table, from: u32) -> Step
    requires { Ready 0 lists.now from table.old.made }
    ensures { Within 1 0 lists.now from table.old.made table.new.made result × Later (λ f. Lays table.old table.new lists.now (λ K T. using_w K T f from) result) }
{
    let base = table.made;
    let lp = peek(lists, from);
    if lp != LP {
        return wrong(lp, from);
    }
    let mut at = from + 1;
    let mut n: u32 = 0;
    loop {
        let r = name(lists, table, at);
        let Step::Got(_, _, d) = r else {
            return r;
        };
        at = d;
        n += 1;
        let kind = peek(lists, at);
        if kind != COMMA {
            break;
        }
        at += 1;
    }
    close(lists, table, at, base, node::USING, n)
}

// As `expr`.
#[cycle(walk)]
fn source(lists: &Lists, table: &mut Table, at: u32, ask: Ask) -> Step
    requires { Ready 4 lists.now at table.old.made }
    ensures { Within 1 4 lists.now at table.old.made table.new.made result × Does 1 ask table.old table.new lists.now (λ K T f c. source_w K T f at c) result }
{
    src(lists, table, at, ask)
}

// A table, or a query in brackets.
#[cycle(walk)]
fn src(lists: &Lists, table: &mut Table, at: u32, ask: Ask) -> Step
    requires { Ready 4 lists.now at table.old.made }
    ensures { Within 1 4 lists.now at table.old.made table.new.made result × Does 1 ask table.old table.new lists.now (λ K T f c. source_w K T f at c) result }
{
    let base = table.made;
    let kind = peek(lists, at);
    if kind != LP {
        return source_table(lists, table, at);
    }
    let q = query(lists, table, at + 1, ask.with(0));
    let Step::Got(_, _, c) = q else {
        return q;
    };
    lent(lists, table, c, base)
}

// RP and an optional alias after a query in FROM.
fn lent(lists: &Lists, table: &mut Table, at: u32, base: u32) -> Step
    requires { Ready 0 lists.now at table.old.made × (base ≤ table.old.made) }
    ensures { Within 1 0 lists.now at table.old.made table.new.made result × ((t : Table) (rs : List Rec) → t.made ≡ base → Fills t table.old rs → Lays t table.new lists.now (λ K T. lent_w K T at rs) result) }
{
    let rp = peek(lists, at);
    if rp != RP {
        return wrong(rp, at);
    }
    let a = alias(lists, table, at + 1);
    let Step::Got(s_e, _, e) = a else {
        return a;
    };
    table.emit(node::QUERY_SOURCE, s_e as u32, 2, table.made - base + 1);
    got(e, 0)
}

fn source_table(lists: &Lists, table: &mut Table, at: u32) -> Step
    requires { Ready 4 lists.now at table.old.made }
    ensures { Within 1 4 lists.now at table.old.made table.new.made result × Lays table.old table.new lists.now (λ K T. table_w K T at) result }
{
    let base = table.made;
    let t = qualified(lists, table, at);
    let Step::Got(_, _, c) = t else {
        return t;
    };
    let a = alias(lists, table, c);
    let Step::Got(s_d, _, d) = a else {
        return a;
    };
    let x = index(lists, table, d);
    let Step::Got(s_e, _, e) = x else {
        return x;
    };
    table.emit(
        node::TABLE,
        s_d as u32 + 4 * s_e as u32,
        4,
        table.made - base + 1,
    );
    got(e, 0)
}

// [ schema DOT ] name
fn qualified(lists: &Lists, table: &mut Table, at: u32) -> Step
    requires { Ready 1 lists.now at table.old.made }
    ensures { Within 1 1 lists.now at table.old.made table.new.made result × Lays table.old table.new lists.now (λ K T. qualified_w K T at) result }
{
    if peek(lists, at + 1) == DOT {
        let r = name(lists, table, at);
        let Step::Got(_, _, d) = r else {
            return r;
        };
        return name(lists, table, d + 1);
    }
    table.absent(1);
    name(lists, table, at)
}

// INDEXED BY name, NOT INDEXED or nothing: says 1, 2 or 0.
fn index(lists: &Lists, table: &mut Table, at: u32) -> Step
    requires { Ready 1 lists.now at table.old.made }
    ensures { Within 0 1 lists.now at table.old.made table.new.made result × Lays table.old table.new lists.now (λ K T. index_w K T at) result }
{
    let kind = peek(lists, at);
    match kind {
        INDEXED => {
            let by = peek(lists, at + 1);
            if by != BY {
                return wrong(by, at + 1);
            }
            let r = name(lists, table, at + 2);
            let Step::Got(_, _, d) = r else {
                return r;
            };
            got(d, 1)
        }
        NOT => {
            let x = peek(lists, at + 1);
            if x != INDEXED {
                return wrong(x, at + 1);
            }
            table.absent(1);
            got(at + 2, 2)
        }
        _ => {
            table.absent(1);
            got(at, 0)
        }
    }
}

// After ORDER.
#[cycle(walk)]
fn sort(lists: &Lists, table: &mut Table, from: u32, ask: Ask) -> Step
    requires { Ready 0 lists.now from table.old.made }
    ensures { Within 1 0 lists.now from table.old.made table.new.made result × Does 1 ask table.old table.new lists.now (λ K T f c. sort_w K T f from c) result }
{
    let by = peek(lists, from);
    if by != BY {
        return wrong(by, from);
    }
    let base = table.made;
    let mut at = from + 1;
    let mut n: u32 = 0;
    loop {
        let term = table.made;
        let r = expr(lists, table, at, ask);
        let Step::Got(_, _, d) = r else {
            return r;
        };
        let w = way(lists, d);
        let Step::Got(s_e, _, e) = w else {
            return w;
        };
        table.emit(node::SORT, s_e as u32, 1, table.made - term + 1);
        at = e;
        n += 1;
        let kind = peek(lists, at);
        if kind != COMMA {
            break;
        }
        at += 1;
    }
    table.emit(node::LIST, 0, n, table.made - base + 1);
    got(at, 0)
}

// [ ASC or DESC ] [ NULLS FIRST or LAST ]: says the term's detail.
fn way(lists: &Lists, at: u32) -> Step
    requires { Ready 0 lists.now at 0 }
    ensures { Within 0 0 lists.now at 0 0 result × Still lists.now (λ K T. way_w K T at) result }
{
    let kind = peek(lists, at);
    match kind {
        ASC => nulls(lists, at + 1, 1),
        DESC => nulls(lists, at + 1, 2),
        _ => nulls(lists, at, 0),
    }
}

fn nulls(lists: &Lists, at: u32, detail: u8) -> Step
    requires { Ready 0 lists.now at 0 × (detail ≤ 2) }
    ensures { Within 0 0 lists.now at 0 0 result × Still lists.now (λ K T. nulls_w K T at detail) result }
{
    let kind = peek(lists, at);
    if kind != NULLS {
        return got(at, detail);
    }
    let next = peek(lists, at + 1);
    match next {
        FIRST => got(at + 2, detail + 4),
        LAST => got(at + 2, detail + 8),
        _ => wrong(next, at + 1),
    }
}

#[cycle(walk)]
fn limit(lists: &Lists, table: &mut Table, at: u32, ask: Ask) -> Step
    requires { Ready 2 lists.now at table.old.made }
    ensures { Within 0 2 lists.now at table.old.made table.new.made result × Does 1 ask table.old table.new lists.now (λ K T f c. limit_w K T f at c) result }
{
    let base = table.made;
    let kind = peek(lists, at);
    if kind != LIMIT {
        table.absent(2);
        return got(at, 0);
    }
    let a = expr(lists, table, at + 1, ask);
    let Step::Got(_, _, c) = a else {
        return a;
    };
    let mid = table.made;
    let next = peek(lists, c);
    match next {
        OFFSET => expr(lists, table, c + 1, ask),
        COMMA => {
            let b = expr(lists, table, c + 1, ask);
            let Step::Got(_, _, _) = b else {
                return b;
            };
            table.rotate(base, mid);
            b
        }
        _ => {
            table.absent(1);
            got(c, 0)
        }
    }
}

// ---- the whole

// 1 where the token is unfit, else 0; with no branch, so that the loop below goes through it four at a time.
fn odd(kind: u32, text: u32) -> u32
    ensures { (result ≡ 0 → kind ≡ 40 → text ≤ 3) × (fits kind text ≡ true → result ≡ 0) × (result ≡ 0 → fits kind text ≡ true) }
{
    let none = (kind == 0) as u32 | (kind > kinds::KINDS) as u32;
    let join = (kind == JOIN_KW) as u32 & ((text == 0) as u32 | (text > 7) as u32);
    let like = (kind == LIKE_KW) as u32 & ((text == 0) as u32 | (text > 3) as u32);
    none | join | like
}

// Whether each token is fit.
fn all_fit(kinds: &[u32], texts: &[u32]) -> bool
    requires { length texts.now ≡ length kinds.now }
    ensures { (result ≡ true → greatest_like kinds.now texts.now ≤ 3) × (result ≡ true → FitLists kinds.now texts.now) × (FitLists kinds.now texts.now → result ≡ true) }
{
    let mut bad = 0;
    for (kind, text) in kinds.iter().zip(texts) {
        bad |= odd(*kind, *text);
    }
    bad == 0
}

// The first token that is unfit, or the count of tokens.
fn unfit(kinds: &[u32], texts: &[u32]) -> usize
    requires { length texts.now ≡ length kinds.now }
    ensures { (result ≤ length kinds.now) × ((FitLists kinds.now texts.now → ⊥) → UnfitAt kinds.now texts.now result) }
{
    for i in 0..kinds.len() {
        if !kinds::fit(kinds[i], texts[i]) {
            return i;
        }
    }
    kinds.len()
}

// A query, then the end of the list or one SEMI and the end.
fn command(lists: &Lists, table: &mut Table) -> Step
    requires { (table.old.made ≡ 0) × Ready 4 lists.now 0 0 }
    ensures { Within 1 4 lists.now 0 table.old.made table.new.made result × Later (λ f. Lays table.old table.new lists.now (λ K T. command_w K T f) result) }
{
    let q = query(lists, table, 0, Ask::outermost());
    let Step::Got(_, _, c) = q else {
        return q;
    };
    let kind = peek(lists, c);
    if kind == 0 {
        return q;
    }
    if kind != SEMI {
        return wrong(kind, c);
    }
    let next = peek(lists, c + 1);
    if next != 0 {
        return wrong(next, c + 1);
    }
    q
}

// The two walks of lists that are lent and fit.
fn start<'a>(
    kinds: &'a [u32],
    texts: &'a [u32],
    strengths: &'a [u32],
    nodes: &mut [u32],
) -> Result<usize, Refusal>
    requires { Lent kinds.now texts.now × (greatest_like kinds.now texts.now ≤ 3) × FitLists kinds.now texts.now × (strengths.now ≡ strength_table) }
    ensures { Reads kinds.now texts.now nodes.old (number result) (place result) nodes.new × Few kinds.now (place result) × Plain result }
{
    let lists = Lists {
        kinds,
        texts,
        strengths,
    };
    let mut none: [u32; 0] = [];
    let mut counted = Table {
        nodes: &mut none,
        made: 0,
    };
    let first = command(&lists, &mut counted);
    match first {
        Step::Refused(why, at) => Err(Refusal {
            why,
            place: at as usize,
        }),
        Step::Got(..) => {
            let need = counted.made as usize;
            if need * WIDTH > nodes.len() {
                return Err(Refusal {
                    why: Reason::TableShort,
                    place: need,
                });
            }
            let mut table = Table { nodes, made: 0 };
            command(&lists, &mut table);
            Ok(need)
        }
    }
}

// Reads the list into records, or refuses it; what is refused leaves the table as it was.
pub fn read<'a>(kinds: &'a [u32], texts: &'a [u32], nodes: &mut [u32]) -> Result<usize, Refusal>
    ensures { Reads kinds.now texts.now nodes.old (number result) (place result) nodes.new × Few kinds.now (place result) × Plain result }
{
    if kinds.len() != texts.len() || kinds.len() > TOKENS {
        return Err(Refusal {
            why: Reason::Lengths,
            place: 0,
        });
    }
    if !all_fit(kinds, texts) {
        return Err(Refusal {
            why: Reason::Unfit,
            place: unfit(kinds, texts),
        });
    }
    let strengths = kinds::strengths();
    start(kinds, texts, &strengths[..], nodes)
}
