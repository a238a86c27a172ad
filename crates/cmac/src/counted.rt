// What is made or found out, with the count of the cipher's calls for it (document 02: the count). Where the value becomes another, three
// times in all, the literal says it: a `map` would take a closure, with a contract, at each.
#[derive(Clone, Copy)]
pub struct Counted<T> {
    pub value: T,
    pub count: u64,
}
