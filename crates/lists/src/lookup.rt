// The first element of a list by its key, at any key that has a total order.
ghost use Rattle.std.specs.Prelude.{◌≡◌, Bool, true};
ghost use Rattle.terms.specs.Lists.{place_from};
ghost use Rattle.lists.specs.First.{First};

// Where the key of an element is found: the element itself need not hold it. `has c x k` says whether k is the key of x. It is a trait, and no closure, since a
// function that takes a closure has to ask that it may be called.
pub trait Keys<T, K: Ord> {
    ghost has: { Self → T → K → Bool };

    fn key(&self, x: &T) -> K
        ensures { (k : K) → has self.now x.now k ≡ K.eq k result };
}

// The index of the first element with the asked key; none exactly where no element has it.
pub fn first<T, K: Ord + Drop, C: Keys<T, K>>(context: &C, list: &[T], asked: K) -> Option<usize>
    ensures place { result ≡ place_from 0 (λ x. C.Keys.has context.now x asked) list.now }
    ensures first { First (λ x. C.Keys.has context.now x asked ≡ true) list.now result }
{
    list.iter().position(|x| asked == context.key(x))
}
