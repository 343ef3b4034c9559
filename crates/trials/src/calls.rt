// The calls of a script: every call of map, set and cursor, each made on the pool that is lent; what it answers, in one
// form.
use crate::told::Told;
use map::bound::Bound;
use map::refusal::Refusal;

// A call, with its key and its value where it takes any; those of a set by themselves.
#[derive(Clone, Copy)]
pub enum Call {
    Insert(u64, u64),
    Replace(u64, u64),
    Remove(u64),
    Get(u64),
    Contains(u64),
    SetInsert(u64),
    SetRemove(u64),
    SetGet(u64),
    SetContains(u64),
    // By the kind's number, which may be that of none.
    Make(u64),
    Clear,
    Count,
    IsEmpty,
    Check,
    Lower(Bound),
    Upper(Bound),
    Next,
    Prev,
    PeekNext,
    PeekPrev,
    WriteNext(u64),
    WritePrev(u64),
    InsertAfter(u64, u64),
    RemoveNext,
    Close,
}

impl Call {
    pub fn on(self, pool: &mut [u64]) -> Told {
        self.answer(pool).unwrap_or_else(Told::Refused)
    }

    fn answer(self, pool: &mut [u64]) -> Result<Told, Refusal> {
        match self {
            Call::Insert(key, value) => map::insert(pool, key, value).map(Told::Inserted),
            Call::Replace(key, value) => map::replace(pool, key, value).map(Told::Replaced),
            Call::Remove(key) => map::remove(pool, key).map(Told::Removed),
            Call::Get(key) => map::get(pool, key).map(Told::Got),
            Call::Contains(key) => map::contains(pool, key).map(Told::Seen),
            Call::SetInsert(key) => map::set::insert(pool, key).map(Told::SetInserted),
            Call::SetRemove(key) => map::set::remove(pool, key).map(Told::SetRemoved),
            Call::SetGet(key) => map::set::get(pool, key).map(Told::SetGot),
            Call::SetContains(key) => map::set::contains(pool, key).map(Told::Seen),
            Call::Make(kind) => map::pool::make(pool, kind).map(|()| Told::Done),
            Call::Clear => map::pool::clear(pool).map(|()| Told::Done),
            Call::Count => map::pool::count(pool).map(Told::Is),
            Call::IsEmpty => map::pool::is_empty(pool).map(Told::Empty),
            Call::Check => Ok(Told::Sound(map::pool::check(pool))),
            Call::Lower(bound) => cursor::opening::lower(pool, bound).map(Told::Opened),
            Call::Upper(bound) => cursor::opening::upper(pool, bound).map(Told::Opened),
            Call::Next => cursor::next(pool).map(Told::Stepped),
            Call::Prev => cursor::prev(pool).map(Told::Stepped),
            Call::PeekNext => cursor::peek_next(pool).map(Told::Stepped),
            Call::PeekPrev => cursor::peek_prev(pool).map(Told::Stepped),
            Call::WriteNext(value) => cursor::write_next(pool, value).map(Told::Overwrote),
            Call::WritePrev(value) => cursor::write_prev(pool, value).map(Told::Overwrote),
            Call::InsertAfter(key, value) => {
                cursor::edit::insert_after(pool, key, value).map(|()| Told::Done)
            }
            Call::RemoveNext => cursor::edit::remove_next(pool).map(Told::Stepped),
            Call::Close => cursor::close(pool).map(|()| Told::Done),
        }
    }
}
