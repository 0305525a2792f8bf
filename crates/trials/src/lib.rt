//! What the tests of the calls of a book ask of an answer, and the books and lists that they begin with.
#![tactic(auto)]

ghost use Rattle.book.specs.Opened.{book_of};
ghost use Rattle.plan.specs.Calls.{parts};
ghost use Rattle.plan.specs.Model.{count_of, opened};
ghost use Rattle.std.specs.Prelude.{◌≡◌, ◌&&◌, ◌++◌, ◌==◌, IfOk, IsOkAnd, length, take};
ghost use Rattle.trials.specs.Trials.{Adds, is_refused, names_from, six_functions, six_names, wholes_to};

use book::declaration::Book;
use book::opened::OpenBook;
use entries::node::ExprId;
use plan::fault::Fault;
use stored::node::Key;

/// Function 0 has no argument, 1 to 4 have as many as their number; none is a total.
pub const NONE: u8 = 0;

/// A total with one argument.
pub const TOTAL: u8 = 5;

/// Whether a call was refused with a question, at stage 1 and level 0.
// A number, since outside a book refusals are known by number.
pub fn refused_with<T: Drop>(answer: Result<T, Fault>, question: u8) -> bool
    ensures { result ≡ is_refused question answer }
{
    match answer {
        Ok(_) => false,
        Err(f) => u8::from(f.question) == question && u8::from(f.stage) == 1 && f.level == 0,
    }
}

/// Whether a book has so many expressions and so many nodes.
pub fn has_counts(book: &OpenBook, exprs: usize, plans: usize) -> bool
    ensures { result ≡ (length (book_of book.now).exprs == exprs) && (count_of (book_of book.now) == plans) }
{
    let reader = book.reader();
    reader.expr_count() == exprs && reader.len() == plans
}

/// A book with functions 0 to 5.
pub fn opened() -> Result<OpenBook, Fault>
    ensures { IsOkAnd result (λ book. book_of book ≡ opened six_functions six_names) }
{
    let mut book = Book::new();
    book.declare(0, b"none", 0, 0, false)?;
    book.declare(1, b"one", 1, 0, false)?;
    book.declare(2, b"two", 2, 0, false)?;
    book.declare(3, b"three", 3, 0, false)?;
    book.declare(4, b"four", 4, 0, false)?;
    book.declare(TOTAL, b"sum", 1, 4, false)?;
    Ok(book.open())
}

/// The expressions 0 to 64, as whole numbers.
pub fn wholes(book: &mut OpenBook) -> Result<[ExprId; 65], Fault>
    ensures adds { IfOk result (λ list. Adds (book_of book.old) list 65 (book_of book.new)) }
    ensures exprs { IfOk result (λ _. (book_of book.new).exprs ≡ (book_of book.old).exprs ++ wholes_to 65) }
{
    let mut out = [ExprId(0); 65];
    for i in 0..65u8 {
        out[i as usize] = book.whole(i as i64)?;
    }
    Ok(out)
}

/// 65 names of one byte each, from `0` to `p`, parted by commas.
pub fn short_names() -> [u8; 129]
    ensures { parts result ≡ names_from 48 65 }
{
    *b"0,1,2,3,4,5,6,7,8,9,:,;,<,=,>,?,@,A,B,C,D,E,F,G,H,I,J,K,L,M,N,O,P,Q,R,S,T,U,V,W,X,Y,Z,[,\\,],^,_,`,a,b,c,d,e,f,g,h,i,j,k,l,m,n,o,p"
}

/// A key in the first direction.
pub fn key(by: ExprId) -> Key
    ensures by { result.by ≡ by }
    ensures direction { result.direction ≡ 0 }
{
    Key { by, direction: 0 }
}

/// Totals of the first 17 expressions of a list.
pub fn totals(book: &mut OpenBook, list: &[ExprId; 65]) -> Result<[ExprId; 17], Fault>
    ensures { IfOk result (λ list. Adds (book_of book.old) list 17 (book_of book.new)) }
{
    let mut out = [ExprId(0); 17];
    for i in 0..17u8 {
        out[i as usize] = book.call(TOTAL, &[list[i as usize]])?;
    }
    Ok(out)
}

/// The first so many of a list; all of it, where it has no more.
pub fn first<T>(list: &[T], count: usize) -> &[T]
    ensures { result.now ≡ take count list.now }
{
    if count < list.len() {
        &list[..count]
    } else {
        list
    }
}
