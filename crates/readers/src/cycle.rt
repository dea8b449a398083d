// THE CYCLE: the readers of expressions, statements, functions and lambdas, which contain one another without end. Each is headed by its
// production and stands by the rule of that name in the grammar's specs. `left` is the number of levels that may still be entered. What
// was read is the last record made: its number is the count of records. All reading of the text is done by leaves.
ghost use Rattle.std.specs.Prelude.{◌≡◌, []};
ghost use Rattle.characters.specs.Text.{on_by};
ghost use Rattle.reading.specs.Gots.{got_of};
ghost use Rattle.reading.specs.Process.{call, plain};
ghost use Rattle.grammar.specs.Heads.{assign_of};
ghost use Rattle.grammar.specs.Expressions.{array_p, atom_p, call_p, chain_p, choice_p, dict_p, element_p, expression_p, extend_p, function, index_p, lambda, list_p, paren_p, postfix_p, postfixes_p, prefix_p, statement, turns, value_p};
ghost use Rattle.grammar.specs.Functions.{block_p, lambda_body_p};
ghost use Rattle.grammar.specs.Statements.{assert_p, assign_as, condition_p, control_body_p, else_p, expr_or_assign_p, first_part_p, for_p, for_rest_p, fun_statement_p, if_p, let_p, loop_p, return_p, test_part_p, third_part_p, while_p};
ghost use Rattle.makers.specs.Duties.{last_in};
ghost use Rattle.makers.specs.Names.{Paired, WellListed};
ghost use Rattle.makers.specs.Plain.{rest_p, routine_by};
ghost use Rattle.readers.specs.Rules.{BarAt, SuffixBegun, suffix_at};
ghost use Rattle.readers.specs.Reading.{MayGoOn, MayRead, Reading, ReadingList, ReadingPart};

use characters::place::{Place, Span};
use characters::refusal::{Refusal, Refused};
use characters::tokens::{Look, keyword, need, sign};
use grammar::assignments::{assign_of, step_of};
use grammar::atoms::atom_of;
use grammar::declarations::let_of;
use grammar::heads::{StatementHead, StepHead, end_of, head_of, name_of};
use grammar::leaves::{
    Atom, Link, Postfix, Prefix, Suffix, close_of, follow_of, key_at, postfix_of, prefix_of,
};
use grammar::operators::{link_of, strength_of};
use grammar::rows::{leaf_row, name_word, pair_row, row};
use makers::answers::{Items, Part};
use makers::chains::{Chain, reduce};
use makers::endings::{combine, held, increment, is_target, jump, make_for, make_fun, stated};
use makers::names::{compare_key, parameters};
use makers::plain::{near, over, plain, rests};
use makers::signs::signed;
use records::book::Book;
use records::kind::Kind;

// What is read, and the limits of records and of comparisons.
#[derive(Clone, Copy)]
pub struct Reader<'a> {
    pub text: &'a [u8],
    pub cap: u32,
    pub comps: u32,
}

impl<'a> Reader<'a> {
    // expression: prefix { operator prefix } [ '?' expression ':' expression ]
    // Most begin with a plain operand, and most of those end there. With `assigning` an assignment sign may follow.
    #[cycle(readers)]
    pub fn expr(
        &self,
        book: &mut Book,
        left: u32,
        assigning: bool,
        at: Place,
    ) -> Result<Place, Refused>
        requires { MayRead self.now book.old at }
        ensures lent { book.new.pool.ghost_name ≡ book.old.pool.ghost_name }
        ensures reads { Reading self.now book.old left at (call (routine_by assigning) at) result book.new }
    {
        if left == 0 {
            return Err(Refused {
                refusal: Refusal::TooDeep,
                at,
            });
        }
        let lower = left - 1;
        let from = near(self.text, at);
        let made = book.tally.records;
        let n = plain(self.text, book.pool, self.cap, from, made);
        if n == 0 {
            return self.long(book, lower, assigning, at);
        }
        let q = from.on(n);
        book.tally = book.tally.recorded();
        if over(self.text, q, assigning) {
            return Ok(q);
        }
        self.rest(book, lower, assigning, q)
    }

    // An expression that begins with no plain operand, its level taken.
    #[cycle(readers)]
    fn long(&self, book: &mut Book, left: u32, assigning: bool, at: Place) -> Result<Place, Refused>
        requires { MayRead self.now book.old at }
        ensures lent { book.new.pool.ghost_name ≡ book.old.pool.ghost_name }
        ensures reads { Reading self.now book.old left at (expression_p self.now.text.now assigning at) result book.new }
    {
        let q = self.prefix(book, left, at)?;
        if over(self.text, q, assigning) {
            return Ok(q);
        }
        self.chain(book, left, assigning, q)
    }

    // What follows the plain operand that an expression begins with.
    #[cycle(readers)]
    fn rest(&self, book: &mut Book, left: u32, assigning: bool, at: Place) -> Result<Place, Refused>
        requires { MayGoOn self.now book.old at }
        ensures lent { book.new.pool.ghost_name ≡ book.old.pool.ghost_name }
        ensures reads { Reading self.now book.old left at (rest_p self.now.text.now assigning (last_in book.old) at) result book.new }
    {
        let near_by = near(self.text, at);
        if rests(self.text, near_by) {
            return self.chain(book, left, assigning, near_by);
        }
        let q = self.posts(book, left, at)?;
        if over(self.text, q, assigning) {
            return Ok(q);
        }
        self.chain(book, left, assigning, q)
    }

    // { operator prefix } [ '?' expression ':' expression ], the first operand read
    #[cycle(readers)]
    fn chain(
        &self,
        book: &mut Book,
        left: u32,
        assigning: bool,
        at: Place,
    ) -> Result<Place, Refused>
        requires { MayGoOn self.now book.old at }
        ensures lent { book.new.pool.ghost_name ≡ book.old.pool.ghost_name }
        ensures reads { Reading self.now book.old left at (chain_p (turns self.now.text.now) self.now.text.now assigning [] (last_in book.old) at) result book.new }
    {
        let mut pending = Chain::empty();
        let mut here = at;
        loop {
            match link_of(self.text, here) {
                Link::End => {
                    reduce(book, self.cap, here, pending, 13)?;
                    return Ok(here);
                }
                Link::Assign => {
                    if !assigning {
                        return Err(Refused {
                            refusal: Refusal::AssignmentAsExpression,
                            at: here,
                        });
                    }
                    reduce(book, self.cap, here, pending, 13)?;
                    return Ok(here);
                }
                Link::Choice { next } => {
                    reduce(book, self.cap, next, pending, 13)?;
                    return self.choice(book, left, next);
                }
                Link::Operator { op, next } => {
                    let strength = strength_of(op);
                    let waiting = reduce(book, self.cap, next, pending, strength)?;
                    let left_side = book.tally.records;
                    here = self.term(book, left, next)?;
                    pending = pending.push(waiting, op, left_side);
                }
            }
        }
    }

    // prefix, which mostly is a plain operand
    #[cycle(readers)]
    fn term(&self, book: &mut Book, left: u32, at: Place) -> Result<Place, Refused>
        requires { MayRead self.now book.old at }
        ensures lent { book.new.pool.ghost_name ≡ book.old.pool.ghost_name }
        ensures reads { Reading self.now book.old left at (prefix_p self.now.text.now at) result book.new }
    {
        let from = near(self.text, at);
        let made = book.tally.records;
        let n = plain(self.text, book.pool, self.cap, from, made);
        if n == 0 {
            return self.prefix(book, left, at);
        }
        let next = from.on(n);
        book.tally = book.tally.recorded();
        let q = near(self.text, next);
        if rests(self.text, q) {
            return Ok(q);
        }
        self.posts(book, left, next)
    }

    // '?' expression ':' expression, the test read
    #[cycle(readers)]
    fn choice(&self, book: &mut Book, left: u32, at: Place) -> Result<Place, Refused>
        requires { MayGoOn self.now book.old at }
        ensures lent { book.new.pool.ghost_name ≡ book.old.pool.ghost_name }
        ensures reads { Reading self.now book.old left at (choice_p self.now.text.now (last_in book.old) at) result book.new }
    {
        let test = book.tally.records;
        let q = self.expr(book, left, false, at)?;
        let then = book.tally.records;
        let colon = need(self.text, q, b':')?;
        let r = self.expr(book, left, false, colon.next)?;
        let other = book.tally.records;
        book.make_like(self.cap, r, Kind::Choice, test, test, then, other)
    }

    // prefix: ( '!' | '-' | '+' ) prefix | postfix
    #[cycle(readers)]
    fn prefix(&self, book: &mut Book, left: u32, at: Place) -> Result<Place, Refused>
        requires { MayRead self.now book.old at }
        ensures lent { book.new.pool.ghost_name ≡ book.old.pool.ghost_name }
        ensures reads { Reading self.now book.old left at (prefix_p self.now.text.now at) result book.new }
    {
        match prefix_of(self.text, at)? {
            Prefix::Other { here } => self.postfix(book, left, here),
            Prefix::Sign {
                sign,
                here,
                next: operand,
            } => {
                if left == 0 {
                    return Err(Refused {
                        refusal: Refusal::TooDeep,
                        at: operand,
                    });
                }
                let lower = left - 1;
                let q = self.prefix(book, lower, operand)?;
                signed(book, self.cap, sign, here, q)
            }
        }
    }

    // postfix: atom { '(' list | '[' expression ']' | '.' name | 'instanceof' name }
    #[cycle(readers)]
    fn postfix(&self, book: &mut Book, left: u32, at: Place) -> Result<Place, Refused>
        requires { MayRead self.now book.old at }
        ensures lent { book.new.pool.ghost_name ≡ book.old.pool.ghost_name }
        ensures reads { Reading self.now book.old left at (postfix_p self.now.text.now at) result book.new }
    {
        let q = self.atom(book, left, at)?;
        self.posts(book, left, q)
    }

    // { '(' list | '[' expression ']' | '.' name | 'instanceof' name }, on the last record
    #[cycle(readers)]
    fn posts(&self, book: &mut Book, left: u32, at: Place) -> Result<Place, Refused>
        requires { MayGoOn self.now book.old at }
        ensures lent { book.new.pool.ghost_name ≡ book.old.pool.ghost_name }
        ensures reads { Reading self.now book.old left at (postfixes_p (turns self.now.text.now) self.now.text.now (last_in book.old) at) result book.new }
    {
        let mut here = at;
        loop {
            match postfix_of(self.text, here)? {
                Postfix::Rest { here: q } => {
                    return Ok(q);
                }
                Postfix::More { suffix: one } => {
                    here = self.suffix(book, left, one)?;
                }
            }
        }
    }

    // '(' list | '[' expression ']' | '.' name | 'instanceof' name, on the last record
    #[cycle(readers)]
    fn suffix(&self, book: &mut Book, left: u32, one: Suffix) -> Result<Place, Refused>
        requires { SuffixBegun self.now.text.now book.old.pool.now self.now.cap one book.old.tally }
        ensures lent { book.new.pool.ghost_name ≡ book.old.pool.ghost_name }
        ensures reads { Reading self.now book.old left (suffix_at one) (extend_p self.now.text.now (last_in book.old) one) result book.new }
    {
        match one {
            Suffix::Call { here, next } => self.call(book, left, here, next),
            Suffix::Index { here, next } => self.index(book, left, here, next),
            Suffix::Member { here, span, next } => {
                let made = row(Kind::Member, here, book.tally.records, span, 0);
                book.make(self.cap, next, made)
            }
            Suffix::InstanceOf { here, span, next } => {
                let made = row(Kind::InstanceOf, here, book.tally.records, span, 0);
                book.make(self.cap, next, made)
            }
        }
    }

    // '(' list, on the last record: at most 254 arguments, tested after the closing sign
    #[cycle(readers)]
    fn call(&self, book: &mut Book, left: u32, here: Place, at: Place) -> Result<Place, Refused>
        requires { MayGoOn self.now book.old at }
        ensures lent { book.new.pool.ghost_name ≡ book.old.pool.ghost_name }
        ensures reads { Reading self.now book.old left at (call_p self.now.text.now (last_in book.old) here at) result book.new }
    {
        let base = book.tally.records;
        let items = self.list(book, left, b')', at)?;
        if 255 <= items.count {
            return Err(Refused {
                refusal: Refusal::TooManyArguments,
                at: items.at,
            });
        }
        let made = row(Kind::Call, here, base, items.last, 0);
        book.make(self.cap, items.at, made)
    }

    // '[' expression ']', on the last record
    #[cycle(readers)]
    fn index(&self, book: &mut Book, left: u32, here: Place, at: Place) -> Result<Place, Refused>
        requires { MayGoOn self.now book.old at }
        ensures lent { book.new.pool.ghost_name ≡ book.old.pool.ghost_name }
        ensures reads { Reading self.now book.old left at (index_p self.now.text.now (last_in book.old) here at) result book.new }
    {
        let base = book.tally.records;
        let q = self.expr(book, left, false, at)?;
        let close = need(self.text, q, b']')?;
        let made = row(Kind::Index, here, base, book.tally.records, 0);
        book.make(self.cap, close.next, made)
    }

    // atom: literal | name | '$' name | '(' expression ')' | '[' list | '{' dictionary | lambda
    #[cycle(readers)]
    fn atom(&self, book: &mut Book, left: u32, at: Place) -> Result<Place, Refused>
        requires { MayRead self.now book.old at }
        ensures lent { book.new.pool.ghost_name ≡ book.old.pool.ghost_name }
        ensures reads { Reading self.now book.old left at (atom_p self.now.text.now at) result book.new }
    {
        match atom_of(self.text, at)? {
            Atom::Leaf { kind, value, next } => {
                let made = leaf_row(kind, at, value);
                book.make(self.cap, next, made)
            }
            Atom::Paren { next } => self.paren(book, left, next),
            Atom::Bracket { next } => self.array(book, left, at, next),
            Atom::Brace { next } => self.dict(book, left, at, next),
            Atom::Bar => {
                let q = self.lambda(book, left, at)?;
                let made = row(Kind::Closure, at, book.tally.records, 0, 0);
                book.make(self.cap, q, made)
            }
        }
    }

    // '(' expression ')': parentheses leave no trace
    #[cycle(readers)]
    fn paren(&self, book: &mut Book, left: u32, at: Place) -> Result<Place, Refused>
        requires { MayRead self.now book.old at }
        ensures lent { book.new.pool.ghost_name ≡ book.old.pool.ghost_name }
        ensures reads { Reading self.now book.old left at (paren_p self.now.text.now at) result book.new }
    {
        let q = self.expr(book, left, false, at)?;
        let close = need(self.text, q, b')')?;
        Ok(close.next)
    }

    // '[' list
    #[cycle(readers)]
    fn array(&self, book: &mut Book, left: u32, here: Place, at: Place) -> Result<Place, Refused>
        requires { MayRead self.now book.old at }
        ensures lent { book.new.pool.ghost_name ≡ book.old.pool.ghost_name }
        ensures reads { Reading self.now book.old left at (array_p self.now.text.now here at) result book.new }
    {
        let items = self.list(book, left, b']', at)?;
        let made = row(Kind::Array, here, items.last, 0, 0);
        book.make(self.cap, items.at, made)
    }

    // list: { expression ',' } [ expression ] end
    #[cycle(readers)]
    fn list(&self, book: &mut Book, left: u32, end: u8, at: Place) -> Result<Items, Refused>
        requires { MayRead self.now book.old at }
        ensures lent { book.new.pool.ghost_name ≡ book.old.pool.ghost_name }
        ensures reads { ReadingList self.now book.old left at (list_p (turns self.now.text.now) self.now.text.now end 0 0 at) result book.new }
    {
        let mut here = at;
        let mut last: u32 = 0;
        let mut count: u32 = 0;
        loop {
            match close_of(self.text, here, end)? {
                Look::Found { here: _, next } => {
                    return Ok(Items {
                        at: next,
                        last,
                        count,
                    });
                }
                Look::Missing { here: q } => {
                    let r = self.elem(book, left, last, q)?;
                    last = book.tally.records;
                    count += 1;
                    match follow_of(self.text, r, end)? {
                        Look::Found { here: _, next } => {
                            return Ok(Items {
                                at: next,
                                last,
                                count,
                            });
                        }
                        Look::Missing { here: next } => {
                            here = next;
                        }
                    }
                }
            }
        }
    }

    // expression, and its item; most are one plain operand
    #[cycle(readers)]
    fn elem(&self, book: &mut Book, left: u32, last: u32, at: Place) -> Result<Place, Refused>
        requires { MayRead self.now book.old at }
        ensures lent { book.new.pool.ghost_name ≡ book.old.pool.ghost_name }
        ensures reads { Reading self.now book.old left at (element_p last at) result book.new }
    {
        if left == 0 {
            return Err(Refused {
                refusal: Refusal::TooDeep,
                at,
            });
        }
        let lower = left - 1;
        let from = near(self.text, at);
        let made = book.tally.records;
        let n = plain(self.text, book.pool, self.cap, from, made);
        if n == 0 {
            let q = self.long(book, lower, false, at)?;
            return held(book, self.cap, last, q);
        }
        let q = from.on(n);
        book.tally = book.tally.recorded();
        if over(self.text, q, false) {
            return held(book, self.cap, last, q);
        }
        let r = self.rest(book, lower, false, q)?;
        held(book, self.cap, last, r)
    }

    // dictionary: { key [ ':' expression ] ',' } [ key [ ':' expression ] ] '}'
    #[cycle(readers)]
    fn dict(&self, book: &mut Book, left: u32, from: Place, at: Place) -> Result<Place, Refused>
        requires { MayRead self.now book.old at }
        ensures lent { book.new.pool.ghost_name ≡ book.old.pool.ghost_name }
        ensures reads { Reading self.now book.old left at (dict_p (turns self.now.text.now) self.now.text.now from [] 0 at) result book.new }
    {
        let mut here = at;
        let mut last: u32 = 0;
        loop {
            match close_of(self.text, here, b'}')? {
                Look::Found { here: _, next } => {
                    let made = row(Kind::Dict, from, last, 0, 0);
                    return book.make(self.cap, next, made);
                }
                Look::Missing { here: q } => {
                    let r = self.pair(book, left, from, last, q)?;
                    last = book.tally.records;
                    match follow_of(self.text, r, b'}')? {
                        Look::Found { here: _, next } => {
                            let made = row(Kind::Dict, from, last, 0, 0);
                            return book.make(self.cap, next, made);
                        }
                        Look::Missing { here: next } => {
                            here = next;
                        }
                    }
                }
            }
        }
    }

    // key [ ':' expression ], and its item
    #[cycle(readers)]
    fn pair(
        &self,
        book: &mut Book,
        left: u32,
        from: Place,
        last: u32,
        at: Place,
    ) -> Result<Place, Refused>
        requires { MayRead self.now book.old at × WellListed book.old.pool.now book.old.tally last }
        ensures lent { book.new.pool.ghost_name ≡ book.old.pool.ghost_name }
        ensures reads { Paired self.now.text.now self.now.cap self.now.comps left from last at book.old.tally (got_of result book.new.tally) book.old.pool.now book.new.pool.now }
    {
        let key = key_at(self.text, at)?;
        let span = Span {
            from: key.here.offset,
            to: key.next.offset,
        };
        compare_key(self.text, book, self.comps, key.next, span, last)?;
        let q = self.value(book, left, from, key.next)?;
        let made = pair_row(book.tally.records, last, span);
        book.make(self.cap, q, made)
    }

    // [ ':' expression ]; the implied `true` stands at the dictionary
    #[cycle(readers)]
    fn value(&self, book: &mut Book, left: u32, from: Place, at: Place) -> Result<Place, Refused>
        requires { MayRead self.now book.old at }
        ensures lent { book.new.pool.ghost_name ≡ book.old.pool.ghost_name }
        ensures reads { Reading self.now book.old left at (value_p self.now.text.now from at) result book.new }
    {
        match sign(self.text, at, b':')? {
            Look::Found { here: _, next } => self.expr(book, left, false, next),
            Look::Missing { here } => {
                let made = row(Kind::True, from, 0, 0, 0);
                book.make(self.cap, here, made)
            }
        }
    }

    // lambda: '|' parameters ( block | expression ), at its first `|`
    #[cycle(readers)]
    fn lambda(&self, book: &mut Book, left: u32, at: Place) -> Result<Place, Refused>
        requires { MayRead self.now book.old at × BarAt self.now.text.now at }
        ensures lent { book.new.pool.ghost_name ≡ book.old.pool.ghost_name }
        ensures reads { Reading self.now book.old left at (call lambda at) result book.new }
    {
        if left == 0 {
            return Err(Refused {
                refusal: Refusal::TooDeep,
                at,
            });
        }
        let lower = left - 1;
        let after = at.on(1);
        let params = parameters(self.text, book, self.cap, self.comps, b'|', after)?;
        let q = self.result(book, lower, at, params.at)?;
        make_fun(book, self.cap, at, 0, params.last, q)
    }

    // block | expression, which the lambda at `from` returns
    #[cycle(readers)]
    fn result(&self, book: &mut Book, left: u32, from: Place, at: Place) -> Result<Place, Refused>
        requires { MayRead self.now book.old at }
        ensures lent { book.new.pool.ghost_name ≡ book.old.pool.ghost_name }
        ensures reads { Reading self.now book.old left at (lambda_body_p self.now.text.now from at) result book.new }
    {
        match sign(self.text, at, b'{')? {
            Look::Found { here, next } => self.block(book, left, here, next),
            Look::Missing { here } => {
                let q = self.expr(book, left, false, here)?;
                let made = row(Kind::Return, from, book.tally.records, 0, 0);
                book.make(self.cap, q, made)
            }
        }
    }

    // function: '(' parameters '{' block, after its name
    #[cycle(readers)]
    pub fn func(
        &self,
        book: &mut Book,
        left: u32,
        from: Place,
        name: u32,
        at: Place,
    ) -> Result<Place, Refused>
        requires { MayRead self.now book.old at }
        ensures lent { book.new.pool.ghost_name ≡ book.old.pool.ghost_name }
        ensures reads { Reading self.now book.old left at (call (function from name) at) result book.new }
    {
        if left == 0 {
            return Err(Refused {
                refusal: Refusal::TooDeep,
                at,
            });
        }
        let lower = left - 1;
        let round = need(self.text, at, b'(')?;
        let params = parameters(self.text, book, self.cap, self.comps, b')', round.next)?;
        let brace = need(self.text, params.at, b'{')?;
        let q = self.block(book, lower, brace.here, brace.next)?;
        make_fun(book, self.cap, from, name, params.last, q)
    }

    // block: { statement } '}', after its '{', which stands at `from`
    #[cycle(readers)]
    fn block(&self, book: &mut Book, left: u32, from: Place, at: Place) -> Result<Place, Refused>
        requires { MayRead self.now book.old at }
        ensures lent { book.new.pool.ghost_name ≡ book.old.pool.ghost_name }
        ensures reads { Reading self.now book.old left at (block_p self.now.text.now from at) result book.new }
    {
        let mut here = at;
        let mut last: u32 = 0;
        loop {
            match end_of(self.text, here)? {
                Look::Found { here: _, next } => {
                    let made = row(Kind::Block, from, last, 0, 0);
                    return book.make(self.cap, next, made);
                }
                Look::Missing { here: q } => {
                    let r = self.statement(book, left, q)?;
                    here = stated(book, self.cap, last, r)?;
                    last = book.tally.records;
                }
            }
        }
    }

    // statement: return | break | continue | if | loop | while | for | assert | let | fun | block | expr-or-assign
    #[cycle(readers)]
    pub fn statement(&self, book: &mut Book, left: u32, at: Place) -> Result<Place, Refused>
        requires { MayRead self.now book.old at }
        ensures lent { book.new.pool.ghost_name ≡ book.old.pool.ghost_name }
        ensures reads { Reading self.now book.old left (on_by 1 at) (call statement at) result book.new }
    {
        if left == 0 {
            return Err(Refused {
                refusal: Refusal::TooDeep,
                at,
            });
        }
        let lower = left - 1;
        match head_of(self.text, at)? {
            StatementHead::ExprOrAssign { here } => self.assign(book, lower, b';', here),
            StatementHead::Let { here, next } => self.lets(book, lower, here, next),
            StatementHead::If { here, next } => self.ifs(book, lower, here, next),
            StatementHead::Return { here, next } => self.rets(book, lower, here, next),
            StatementHead::Block { here, next } => self.block(book, lower, here, next),
            StatementHead::For { here, next } => self.fors(book, lower, here, next),
            StatementHead::While { here, next } => self.whiles(book, lower, here, next),
            StatementHead::Fun { here, next } => self.funs(book, lower, here, next),
            StatementHead::Loop { here, next } => self.loops(book, lower, here, next),
            StatementHead::Assert { here, next } => self.asserts(book, lower, here, next),
            StatementHead::Break { here, next } => {
                jump(self.text, book, self.cap, Kind::Break, here, next)
            }
            StatementHead::Continue { here, next } => {
                jump(self.text, book, self.cap, Kind::Continue, here, next)
            }
        }
    }

    // return: 'return' [ expression ] ';', after the keyword, which stands at `from`
    #[cycle(readers)]
    fn rets(&self, book: &mut Book, left: u32, from: Place, at: Place) -> Result<Place, Refused>
        requires { MayRead self.now book.old at }
        ensures lent { book.new.pool.ghost_name ≡ book.old.pool.ghost_name }
        ensures reads { Reading self.now book.old left at (return_p self.now.text.now from at) result book.new }
    {
        match sign(self.text, at, b';')? {
            Look::Found { here: _, next } => {
                let nil = row(Kind::Nil, from, 0, 0, 0);
                let q = book.make(self.cap, next, nil)?;
                let made = row(Kind::Return, from, book.tally.records, 0, 0);
                book.make(self.cap, q, made)
            }
            Look::Missing { here } => {
                let q = self.expr(book, left, false, here)?;
                let end = need(self.text, q, b';')?;
                let made = row(Kind::Return, from, book.tally.records, 0, 0);
                book.make(self.cap, end.next, made)
            }
        }
    }

    // condition: '(' expression ')'
    #[cycle(readers)]
    fn cond(&self, book: &mut Book, left: u32, at: Place) -> Result<Place, Refused>
        requires { MayRead self.now book.old at }
        ensures lent { book.new.pool.ghost_name ≡ book.old.pool.ghost_name }
        ensures reads { Reading self.now book.old left at (condition_p self.now.text.now at) result book.new }
    {
        let round = need(self.text, at, b'(')?;
        self.paren(book, left, round.next)
    }

    // control-body: statement, which is no declaration
    #[cycle(readers)]
    fn body(&self, book: &mut Book, left: u32, at: Place) -> Result<Place, Refused>
        requires { MayRead self.now book.old at }
        ensures lent { book.new.pool.ghost_name ≡ book.old.pool.ghost_name }
        ensures reads { Reading self.now book.old left at (control_body_p self.now.text.now at) result book.new }
    {
        let q = self.statement(book, left, at)?;
        let made = book.tally.records;
        let kind = book.kind_of(made);
        if kind == Kind::Let as u32 {
            let position = book.position_of(made);
            return Err(Refused {
                refusal: Refusal::DeclarationAsBody,
                at: position,
            });
        }
        Ok(q)
    }

    // if: 'if' condition control-body [ 'else' control-body ], after the keyword, which stands at `from`
    #[cycle(readers)]
    fn ifs(&self, book: &mut Book, left: u32, from: Place, at: Place) -> Result<Place, Refused>
        requires { MayRead self.now book.old at }
        ensures lent { book.new.pool.ghost_name ≡ book.old.pool.ghost_name }
        ensures reads { Reading self.now book.old left at (if_p self.now.text.now from at) result book.new }
    {
        let q = self.cond(book, left, at)?;
        let test = book.tally.records;
        let r = self.body(book, left, q)?;
        let first = book.tally.records;
        self.elses(book, left, from, test, first, r)
    }

    // [ 'else' control-body ], the test and the first body read
    #[cycle(readers)]
    fn elses(
        &self,
        book: &mut Book,
        left: u32,
        from: Place,
        test: u32,
        first: u32,
        at: Place,
    ) -> Result<Place, Refused>
        requires { MayRead self.now book.old at }
        ensures lent { book.new.pool.ghost_name ≡ book.old.pool.ghost_name }
        ensures reads { Reading self.now book.old left at (else_p self.now.text.now from (plain test at) (plain first at) at) result book.new }
    {
        match keyword(self.text, at, b"else")? {
            Look::Missing { here } => {
                let made = row(Kind::If, from, test, first, 0);
                book.make(self.cap, here, made)
            }
            Look::Found { here: _, next } => {
                let q = self.body(book, left, next)?;
                let made = row(Kind::If, from, test, first, book.tally.records);
                book.make(self.cap, q, made)
            }
        }
    }

    // loop: 'loop' control-body, after the keyword
    #[cycle(readers)]
    fn loops(&self, book: &mut Book, left: u32, from: Place, at: Place) -> Result<Place, Refused>
        requires { MayRead self.now book.old at }
        ensures lent { book.new.pool.ghost_name ≡ book.old.pool.ghost_name }
        ensures reads { Reading self.now book.old left at (loop_p self.now.text.now from at) result book.new }
    {
        let q = self.body(book, left, at)?;
        make_for(book, self.cap, from, 0, 0, 0, q)
    }

    // while: 'while' condition control-body, after the keyword
    #[cycle(readers)]
    fn whiles(&self, book: &mut Book, left: u32, from: Place, at: Place) -> Result<Place, Refused>
        requires { MayRead self.now book.old at }
        ensures lent { book.new.pool.ghost_name ≡ book.old.pool.ghost_name }
        ensures reads { Reading self.now book.old left at (while_p self.now.text.now from at) result book.new }
    {
        let q = self.cond(book, left, at)?;
        let test = book.tally.records;
        let r = self.body(book, left, q)?;
        make_for(book, self.cap, from, 0, test, 0, r)
    }

    // for: 'for' '(' first-part test-part third-part control-body, after the keyword
    #[cycle(readers)]
    fn fors(&self, book: &mut Book, left: u32, from: Place, at: Place) -> Result<Place, Refused>
        requires { MayRead self.now book.old at }
        ensures lent { book.new.pool.ghost_name ≡ book.old.pool.ghost_name }
        ensures reads { Reading self.now book.old left at (for_p self.now.text.now from at) result book.new }
    {
        let round = need(self.text, at, b'(')?;
        let one = self.first(book, left, round.next)?;
        let two = self.test(book, left, one.at)?;
        self.round(book, left, from, one.number, two.number, two.at)
    }

    // first-part: ';' | statement
    #[cycle(readers)]
    fn first(&self, book: &mut Book, left: u32, at: Place) -> Result<Part, Refused>
        requires { MayRead self.now book.old at }
        ensures lent { book.new.pool.ghost_name ≡ book.old.pool.ghost_name }
        ensures reads { ReadingPart self.now book.old left at (first_part_p self.now.text.now at) result book.new }
    {
        match sign(self.text, at, b';')? {
            Look::Found { here: _, next } => Ok(Part {
                at: next,
                number: 0,
            }),
            Look::Missing { here } => {
                let q = self.statement(book, left, here)?;
                let number = book.tally.records;
                Ok(Part { at: q, number })
            }
        }
    }

    // test-part: ';' | expression ';'
    #[cycle(readers)]
    fn test(&self, book: &mut Book, left: u32, at: Place) -> Result<Part, Refused>
        requires { MayRead self.now book.old at }
        ensures lent { book.new.pool.ghost_name ≡ book.old.pool.ghost_name }
        ensures reads { ReadingPart self.now book.old left at (test_part_p self.now.text.now at) result book.new }
    {
        match sign(self.text, at, b';')? {
            Look::Found { here: _, next } => Ok(Part {
                at: next,
                number: 0,
            }),
            Look::Missing { here } => {
                let q = self.expr(book, left, false, here)?;
                let end = need(self.text, q, b';')?;
                let number = book.tally.records;
                Ok(Part {
                    at: end.next,
                    number,
                })
            }
        }
    }

    // third-part: ')' | expr-or-assign, which ends with the `)`
    #[cycle(readers)]
    fn third(&self, book: &mut Book, left: u32, at: Place) -> Result<Part, Refused>
        requires { MayRead self.now book.old at }
        ensures lent { book.new.pool.ghost_name ≡ book.old.pool.ghost_name }
        ensures reads { ReadingPart self.now book.old left at (third_part_p self.now.text.now at) result book.new }
    {
        match sign(self.text, at, b')')? {
            Look::Found { here: _, next } => Ok(Part {
                at: next,
                number: 0,
            }),
            Look::Missing { here } => {
                let q = self.assign(book, left, b')', here)?;
                let number = book.tally.records;
                Ok(Part { at: q, number })
            }
        }
    }

    // third-part control-body, the first two parts read
    #[cycle(readers)]
    fn round(
        &self,
        book: &mut Book,
        left: u32,
        from: Place,
        one: u32,
        two: u32,
        at: Place,
    ) -> Result<Place, Refused>
        requires { MayRead self.now book.old at }
        ensures lent { book.new.pool.ghost_name ≡ book.old.pool.ghost_name }
        ensures reads { Reading self.now book.old left at (for_rest_p self.now.text.now from (plain one at) (plain two at) at) result book.new }
    {
        let three = self.third(book, left, at)?;
        let q = self.body(book, left, three.at)?;
        make_for(book, self.cap, from, one, two, three.number, q)
    }

    // assert: 'assert' condition ';', after the keyword
    #[cycle(readers)]
    fn asserts(&self, book: &mut Book, left: u32, from: Place, at: Place) -> Result<Place, Refused>
        requires { MayRead self.now book.old at }
        ensures lent { book.new.pool.ghost_name ≡ book.old.pool.ghost_name }
        ensures reads { Reading self.now book.old left at (assert_p self.now.text.now from at) result book.new }
    {
        let q = self.cond(book, left, at)?;
        let end = need(self.text, q, b';')?;
        let made = row(Kind::Assert, from, book.tally.records, 0, 0);
        book.make(self.cap, end.next, made)
    }

    // let: 'let' [ 'var' ] name '=' expression ';', after the keyword
    #[cycle(readers)]
    fn lets(&self, book: &mut Book, left: u32, from: Place, at: Place) -> Result<Place, Refused>
        requires { MayRead self.now book.old at }
        ensures lent { book.new.pool.ghost_name ≡ book.old.pool.ghost_name }
        ensures reads { Reading self.now book.old left at (let_p self.now.text.now from at) result book.new }
    {
        let head = let_of(self.text, at)?;
        let q = self.expr(book, left, false, head.next)?;
        let end = need(self.text, q, b';')?;
        let made = row(Kind::Let, from, head.mark, head.span, book.tally.records);
        book.make(self.cap, end.next, made)
    }

    // fun: 'fun' name function, after the keyword: the function, the closure of it, and the `let` of that
    #[cycle(readers)]
    fn funs(&self, book: &mut Book, left: u32, from: Place, at: Place) -> Result<Place, Refused>
        requires { MayRead self.now book.old at }
        ensures lent { book.new.pool.ghost_name ≡ book.old.pool.ghost_name }
        ensures reads { Reading self.now book.old left at (fun_statement_p self.now.text.now from at) result book.new }
    {
        let name = name_of(self.text, at)?;
        let word = name_word(name.here, name.next);
        let q = self.func(book, left, from, word, name.next)?;
        let closure = row(Kind::Closure, from, book.tally.records, 0, 0);
        let r = book.make(self.cap, q, closure)?;
        let made = row(Kind::Let, from, 0, word, book.tally.records);
        book.make(self.cap, r, made)
    }

    // expr-or-assign: ( '++' | '--' ) postfix end | expression [ assignment-sign expression ] end
    #[cycle(readers)]
    fn assign(&self, book: &mut Book, left: u32, end: u8, at: Place) -> Result<Place, Refused>
        requires { MayRead self.now book.old at }
        ensures lent { book.new.pool.ghost_name ≡ book.old.pool.ghost_name }
        ensures reads { Reading self.now book.old left (on_by 1 at) (expr_or_assign_p self.now.text.now end at) result book.new }
    {
        match step_of(self.text, at)? {
            StepHead::Step { op, next } => {
                let q = self.postfix(book, left, next)?;
                increment(self.text, book, self.cap, end, at, op, q)
            }
            StepHead::Other => {
                let q = self.expr(book, left, true, at)?;
                self.store(book, left, end, at, q)
            }
        }
    }

    // [ assignment-sign expression ] end, the target or the call read; the statement stands at `from`
    #[cycle(readers)]
    fn store(
        &self,
        book: &mut Book,
        left: u32,
        end: u8,
        from: Place,
        at: Place,
    ) -> Result<Place, Refused>
        requires { MayGoOn self.now book.old at }
        ensures lent { book.new.pool.ghost_name ≡ book.old.pool.ghost_name }
        ensures reads { Reading self.now book.old left (on_by 1 at) (assign_as self.now.text.now end from (last_in book.old) at (assign_of self.now.text.now at)) result book.new }
    {
        let target = book.tally.records;
        let kind = book.kind_of(target);
        match assign_of(self.text, at) {
            None => {
                let last = need(self.text, at, end)?;
                if kind != Kind::Call as u32 {
                    let position = book.position_of(target);
                    return Err(Refused {
                        refusal: Refusal::NotACall,
                        at: position,
                    });
                }
                let made = row(Kind::Do, from, target, 0, 0);
                book.make(self.cap, last.next, made)
            }
            Some(assignment) => {
                if !is_target(kind) {
                    let position = book.position_of(target);
                    return Err(Refused {
                        refusal: Refusal::InvalidTarget,
                        at: position,
                    });
                }
                let q = self.expr(book, left, false, assignment.next)?;
                let last = need(self.text, q, end)?;
                if assignment.op == 0 {
                    let made = row(Kind::Assign, from, target, book.tally.records, 0);
                    return book.make(self.cap, last.next, made);
                }
                combine(book, self.cap, from, assignment.op, target, last.next)
            }
        }
    }
}
