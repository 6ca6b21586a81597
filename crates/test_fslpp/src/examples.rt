//! The programs of `examples` that are accepted, each with the answer that its first line names.
//! `tools/examples_as_tests.py` writes this file.
use crate::refusals::is_answered;

const EXAMPLES: [(&str, &str); 28] = [
    (
        "// expect: accepted 4
// shows: a value is published once to two readers; each gains half of the cell, by a part of its own
inv Announced(cell) of flag
  { if (flag == 0) { emp } else { cell |->[4611686018427387904] 7 } }
  { if (flag == 0) { emp } else { cell |->[4611686018427387904] 7 } }
proc announce(flag, cell)
  requires (Rel(flag, Announced(cell)) &*& cell |-> _) {
  store na(cell, 7);
  store rel(flag, 1);
}
proc first(flag, cell)
  requires (Init(flag) &*& Acq(flag, Announced(cell), 0, {})) {
  let seen = load acq(flag);
  if (seen != 0) {
    let x = load na(cell);
    assert (x == 7);
  }
}
proc second(flag, cell)
  requires (Init(flag) &*& Acq(flag, Announced(cell), 1, {})) {
  let seen = load acq(flag);
  if (seen != 0) {
    let x = load na(cell);
    assert (x == 7);
  }
}
proc main() {
  let cell = alloc na;
  let flag = alloc acq Announced(cell);
  store rel(flag, 0);
  par { announce(flag, cell); first(flag, cell); second(flag, cell); }
}
",
        "accepted 4\n",
    ),
    (
        "// expect: accepted 3
// shows: a thread waits in a loop for a flag; as long as it reads 0 it has gained nothing, and may go on asking
inv Ready(cell) of flag { if (flag == 0) { emp } else { cell |-> 7 } }
proc fill(flag, cell)
  requires (Rel(flag, Ready(cell)) &*& cell |-> _) {
  store na(cell, 7);
  store rel(flag, 1);
}
proc await(flag, cell)
  requires (Init(flag) &*& Acq(flag, Ready(cell), 0, {}))
  ensures (result == 7) {
  let seen = load acq(flag);
  while (seen == 0)
    inv (Init(flag) &*& if (seen == 0) { Acq(flag, Ready(cell), 0, {0}) } else { cell |-> 7 }) {
    seen = load acq(flag);
  }
  let found = load na(cell);
  free(cell);
  return found;
}
proc main() {
  let cell = alloc na;
  let flag = alloc acq Ready(cell);
  store rel(flag, 0);
  par { fill(flag, cell); await(flag, cell); }
}
",
        "accepted 3\n",
    ),
    (
        "// expect: accepted 3
// shows: the loop asks by relaxed loads; one acquire fence behind it gives what the last of them has seen
inv Ready(cell) of flag { if (flag == 0) { emp } else { cell |-> 7 } }
proc fill(flag, cell)
  requires (Rel(flag, Ready(cell)) &*& cell |-> _) {
  store na(cell, 7);
  store rel(flag, 1);
}
proc await(flag, cell)
  requires (Init(flag) &*& Acq(flag, Ready(cell), 0, {}))
  ensures (result == 7) {
  let seen = load rlx(flag);
  while (seen == 0)
    inv (Init(flag) &*& if (seen == 0) { Acq(flag, Ready(cell), 0, {0}) } else { down(cell |-> 7) }) {
    seen = load rlx(flag);
  }
  fence acq;
  let found = load na(cell);
  free(cell);
  return found;
}
proc main() {
  let cell = alloc na;
  let flag = alloc acq Ready(cell);
  store rel(flag, 0);
  par { fill(flag, cell); await(flag, cell); }
}
",
        "accepted 3\n",
    ),
    (
        "// expect: accepted 4
// shows: one slot is used again: a flag says that it is full, and with what; another says that it was emptied
inv Full(slot) of n { if (n == 0) { emp } else { slot |-> 10 * n } }
inv Empty(slot) of n { if (n == 0) { emp } else { slot |-> _ } }
proc produce(slot, full, empty)
  requires (slot |-> _ &*& Rel(full, Full(slot)) &*& Init(empty) &*& Acq(empty, Empty(slot), 0, {})) {
  store na(slot, 10);
  store rel(full, 1);
  let taken = load acq(empty);
  while (taken == 0)
    inv (Init(empty) &*& if (taken == 0) { Acq(empty, Empty(slot), 0, {0}) } else { slot |-> _ }) {
    taken = load acq(empty);
  }
  store na(slot, 20);
  store rel(full, 2);
}
proc next(slot, full, last)
  requires (Init(full) &*& Acq(full, Full(slot), 0, {0, last}))
  ensures (slot |-> 10 * result &*& Acq(full, Full(slot), 0, {0, last, result}) &*& result != last) {
  let n = 0;
  while (n == 0)
    inv (Init(full) &*& if (n == 0) { Acq(full, Full(slot), 0, {0, last}) }
      else { slot |-> 10 * n &*& Acq(full, Full(slot), 0, {0, last, n}) &*& n != last }) {
    n = load acq(full);
    if (n == last) { n = 0; }
  }
  return n;
}
proc consume(slot, full, empty)
  requires (Init(full) &*& Acq(full, Full(slot), 0, {}) &*& Rel(empty, Empty(slot))) {
  let first = call next(slot, full, 0);
  let x = load na(slot);
  assert (x == 10 * first);
  store rel(empty, 1);
  let second = call next(slot, full, first);
  let y = load na(slot);
  assert (y == 10 * second);
  free(slot);
}
proc main() {
  let slot = alloc na;
  let full = alloc acq Full(slot);
  let empty = alloc acq Empty(slot);
  store rel(full, 0);
  store rel(empty, 0);
  par { produce(slot, full, empty); consume(slot, full, empty); }
}
",
        "accepted 4\n",
    ),
    (
        "// expect: accepted 1
// shows: a cell is allocated, stored to and loaded, and the value loaded is asserted
proc main() {
  let c = alloc na;
  store na(c, 7);
  let x = load na(c);
  assert (x == 7);
}
",
        "accepted 1\n",
    ),
    (
        "// expect: accepted 3
// shows: branches on numbers alone, and contracts that say exactly which result comes when
proc absolute(x)
  ensures (result >= 0 &*& if (x < 0) { result == -x } else { result == x }) {
  if (x < 0) { return -x; }
  return x;
}
proc clamp(x, low, high)
  requires (low <= high)
  ensures (low <= result &*& result <= high
    &*& if (x < low) { result == low } else { if (x > high) { result == high } else { result == x } }) {
  let kept = x;
  if (x < low) { kept = low; }
  if (x > high) { kept = high; }
  return kept;
}
proc main() { }
",
        "accepted 3\n",
    ),
    (
        "// expect: accepted 1
// shows: a loop with an invariant, which says what the cell holds whenever the condition is looked at
proc main() {
  let counter = alloc na;
  store na(counter, 0);
  let i = 0;
  while (i < 10) inv (counter |-> i &*& i <= 10) {
    let seen = load na(counter);
    store na(counter, seen + 1);
    i = i + 1;
  }
  let last = load na(counter);
  assert (last == 10);
}
",
        "accepted 1\n",
    ),
    (
        "// expect: accepted 3
// shows: the work on a cell is divided in two halves, each a thread on a cell of its own, and added up behind the `par`
proc count_up(counter, times)
  requires (counter |-> ?before &*& times >= 0)
  ensures (counter |-> before + times) {
  let start = load na(counter);
  let done = 0;
  while (done < times) inv (counter |-> start + done &*& done <= times) {
    let value = load na(counter);
    store na(counter, value + 1);
    done = done + 1;
  }
}
proc count_in_two(times)
  requires (times >= 0)
  ensures (result == 2 * times) {
  let left = alloc na;
  let right = alloc na;
  store na(left, 0);
  store na(right, 0);
  par { count_up(left, times); count_up(right, times); }
  let x = load na(left);
  let y = load na(right);
  return x + y;
}
proc main() {
  let sum = call count_in_two(21);
  assert (sum == 42);
}
",
        "accepted 3\n",
    ),
    (
        "// expect: accepted 2
// shows: a loop that changes a cell; its invariant owns the cell and says how far the count has come
proc count_up(counter, times)
  requires (counter |-> ?before &*& times >= 0)
  ensures (counter |-> before + times) {
  let start = load na(counter);
  let done = 0;
  while (done < times) inv (counter |-> start + done &*& done <= times) {
    let value = load na(counter);
    store na(counter, value + 1);
    done = done + 1;
  }
}
proc main() { }
",
        "accepted 2\n",
    ),
    (
        "// expect: accepted 2
// shows: a procedure that calls itself may rely on its own contract; that it ends isn't shown
proc countdown(cell)
  requires (cell |-> ?left &*& left >= 0)
  ensures (cell |-> 0 &*& result == left) {
  let left = load na(cell);
  if (left == 0) { return 0; }
  store na(cell, left - 1);
  let rounds = call countdown(cell);
  return rounds + 1;
}
proc main() {
  let cell = alloc na;
  store na(cell, 3);
  let rounds = call countdown(cell);
  assert (rounds == 3);
}
",
        "accepted 2\n",
    ),
    (
        "// expect: accepted 3
// shows: a call gives what `requires` says and gains what `ensures` says; the body of the procedure isn't looked at
proc deposit(account, amount)
  requires (account |-> ?before &*& amount >= 0)
  ensures (account |-> before + amount &*& result == before) {
  let balance = load na(account);
  store na(account, balance + amount);
  return balance;
}
proc open(amount)
  requires (amount >= 0)
  ensures (result |-> amount) {
  let account = alloc na;
  store na(account, 0);
  call deposit(account, amount);
  return account;
}
proc main() {
  let savings = call open(20);
  let before = call deposit(savings, 22);
  assert (before == 20);
  let after = load na(savings);
  assert (after == 42);
}
",
        "accepted 3\n",
    ),
    (
        "// expect: accepted 2
// shows: a cell is given back by the one that owns all of it
proc empty(cell)
  requires (cell |-> ?held)
  ensures (result == held) {
  let last = load na(cell);
  free(cell);
  return last;
}
proc main() {
  let cell = alloc na;
  store na(cell, 4);
  let last = call empty(cell);
  assert (last == 4);
}
",
        "accepted 2\n",
    ),
    (
        "// expect: accepted 2
// shows: the value is computed on first use; until then a choice in the contract leaves the cell without a value
proc value_of(ready, value, seed)
  requires (ready |-> ?was &*& if (was == 0) { value |-> _ } else { value |-> 2 * seed + 1 })
  ensures (ready |-> ?is &*& is != 0 &*& value |-> 2 * seed + 1 &*& result == 2 * seed + 1) {
  let known = load na(ready);
  if (known == 0) {
    store na(value, 2 * seed + 1);
    store na(ready, 1);
  }
  let found = load na(value);
  return found;
}
proc main() { }
",
        "accepted 2\n",
    ),
    (
        "// expect: accepted 1
// shows: a cell holds the address of another one, and a load goes through it
proc main() {
  let item = alloc na;
  let link = alloc na;
  store na(item, 7);
  store na(link, item);
  let found = load na(link);
  assert (found == item);
  let x = load na(found);
  assert (x == 7);
}
",
        "accepted 1\n",
    ),
    (
        "// expect: accepted 2
// shows: one share is enough to read; a choice in `ensures` says which of the two values is the result
proc maximum(left, right)
  requires (left |->[1] ?x &*& right |->[1] ?y)
  ensures (left |->[1] x &*& right |->[1] y &*& if (x < y) { result == y } else { result == x }) {
  let a = load na(left);
  let b = load na(right);
  if (a < b) { return b; }
  return a;
}
proc main() { }
",
        "accepted 2\n",
    ),
    (
        "// expect: accepted 4
// shows: a one-shot channel: one message hands over two cells, and what is known of both together
inv Parcel(low, high) of sent { if (sent == 0) { emp } else { low |-> ?a &*& high |-> ?b &*& a <= b } }
proc send(channel, low, high, first, second)
  requires (Rel(channel, Parcel(low, high)) &*& low |-> _ &*& high |-> _ &*& first <= second) {
  store na(low, first);
  store na(high, second);
  store rel(channel, 1);
}
proc receive(channel, low, high)
  requires (Init(channel) &*& Acq(channel, Parcel(low, high), 0, {}))
  ensures (if (result == 0) { emp } else { low |-> ?a &*& high |-> ?b &*& a <= b }) {
  let sent = load acq(channel);
  return sent;
}
proc unpack(channel, low, high)
  requires (Init(channel) &*& Acq(channel, Parcel(low, high), 0, {})) {
  let sent = call receive(channel, low, high);
  if (sent != 0) {
    let a = load na(low);
    let b = load na(high);
    assert (a <= b);
    free(low);
    free(high);
  }
}
proc main() {
  let low = alloc na;
  let high = alloc na;
  let channel = alloc acq Parcel(low, high);
  store rel(channel, 0);
  par { send(channel, low, high, 4, 9); unpack(channel, low, high); }
}
",
        "accepted 4\n",
    ),
    (
        "// expect: accepted 3
// shows: a price is published by a release store, and belongs to the one whose acquire load sees it
inv Posted(price) of step { if (step == 0) { emp } else { price |-> 250 } }
proc post(board, price)
  requires (Rel(board, Posted(price)) &*& price |-> _) {
  store na(price, 250);
  store rel(board, 1);
}
proc shop(board, price)
  requires (Init(board) &*& Acq(board, Posted(price), 0, {})) {
  let step = load acq(board);
  if (step != 0) {
    let asked = load na(price);
    assert (asked == 250);
    store na(price, 0);
  }
}
proc main() {
  let price = alloc na;
  let board = alloc acq Posted(price);
  store rel(board, 0);
  par { post(board, price); shop(board, price); }
}
",
        "accepted 3\n",
    ),
    (
        "// expect: accepted 3
// shows: the same by fences: one sets the price apart for a relaxed store, the other gives what a relaxed load saw
inv Posted(price) of step { if (step == 0) { emp } else { price |-> 250 } }
proc post(board, price)
  requires (Rel(board, Posted(price)) &*& price |-> _) {
  store na(price, 250);
  fence rel (price |-> 250);
  store rlx(board, 1);
}
proc shop(board, price)
  requires (Init(board) &*& Acq(board, Posted(price), 0, {})) {
  let step = load rlx(board);
  if (step != 0) {
    fence acq;
    let asked = load na(price);
    assert (asked == 250);
    store na(price, 0);
  }
}
proc main() {
  let price = alloc na;
  let board = alloc acq Posted(price);
  store rel(board, 0);
  par { post(board, price); shop(board, price); }
}
",
        "accepted 3\n",
    ),
    (
        "// expect: accepted 2
// shows: a binder in an invariant names a value that no variable holds, and the sum of two cells stays the same
proc pour(source, target)
  requires (source |-> ?x &*& target |-> ?y &*& x >= 0)
  ensures (source |-> 0 &*& target |-> x + y) {
  let left = load na(source);
  let there = load na(target);
  let total = left + there;
  while (left > 0)
    inv (source |-> left &*& target |-> ?poured &*& left + poured == total &*& left >= 0) {
    left = left - 1;
    store na(source, left);
    let level = load na(target);
    store na(target, level + 1);
  }
}
proc main() { }
",
        "accepted 2\n",
    ),
    (
        "// expect: accepted 3
// shows: a queue without an end: each cell that is handed over says where the next message will stand
inv Link() of item
  { if (item == 0) { emp } else { item |-> ?next &*& Init(next) &*& Acq(next, Link(), 0, {}) } }
proc put(tail)
  requires (Rel(tail, Link())) {
  let last = tail;
  while (true) inv (Rel(last, Link())) {
    let next = alloc acq Link();
    store rel(next, 0);
    let item = alloc na;
    store na(item, next);
    store rel(last, item);
    last = next;
  }
}
proc take(head)
  requires (Init(head) &*& Acq(head, Link(), 0, {})) {
  let first = head;
  while (true) inv (Init(first) &*& Acq(first, Link(), 0, {0})) {
    let item = load acq(first);
    if (item != 0) {
      first = load na(item);
      free(item);
    }
  }
}
proc main() {
  let queue = alloc acq Link();
  store rel(queue, 0);
  par { put(queue); take(queue); }
}
",
        "accepted 3\n",
    ),
    (
        "// expect: accepted 4
// shows: a cell is lent to two readers, one share each; with all shares back it may be written again
proc read(cell)
  requires (cell |->[1] ?v)
  ensures (cell |->[1] v &*& result == v) {
  let seen = load na(cell);
  return seen;
}
proc lend(cell)
  requires (cell |-> ?v)
  ensures (cell |->[1] v &*& cell |->[1] v &*& cell |->[9223372036854775806] v) { }
proc take_back(cell)
  requires (cell |->[1] ?v &*& cell |->[1] ?w &*& cell |->[9223372036854775806] _)
  ensures (cell |-> v + 1 &*& v == w) {
  let seen = load na(cell);
  store na(cell, seen + 1);
}
proc main() { }
",
        "accepted 4\n",
    ),
    (
        "// expect: accepted 1
// shows: sums over loaded values, stored again and compared
proc main() {
  let price = alloc na;
  let postage = alloc na;
  store na(price, 120);
  store na(postage, 15);
  let p = load na(price);
  let q = load na(postage);
  let total = p + q;
  assert (total == 135);
  store na(price, total - 5); // five off
  let reduced = load na(price);
  assert (reduced + 5 == p + q);
  print(reduced);
}
",
        "accepted 1\n",
    ),
    (
        "// expect: accepted 2
// shows: the sum of 1 to n is at least n; n * (n + 1) / 2 itself can't be said, as products need a constant side
proc sum_to(n)
  requires (n >= 0)
  ensures (result >= n) {
  let sum = 0;
  let i = 0;
  while (i < n) inv (0 <= i &*& i <= n &*& i <= sum) {
    i = i + 1;
    sum = sum + i;
  }
  return sum;
}
proc main() { }
",
        "accepted 2\n",
    ),
    (
        "// expect: accepted 2
// shows: a contract over two cells; the binders of `requires` name the old values in `ensures`
proc swap(left, right)
  requires (left |-> ?x &*& right |-> ?y)
  ensures (left |-> y &*& right |-> x) {
  let a = load na(left);
  let b = load na(right);
  store na(left, b);
  store na(right, a);
}
proc main() { }
",
        "accepted 2\n",
    ),
    (
        "// expect: accepted 2
// shows: no money is lost or made, and no account is overdrawn; the result says whether the amount was paid
proc transfer(payer, payee, amount)
  requires (payer |-> ?p &*& payee |-> ?q &*& p >= 0 &*& amount >= 0)
  ensures (payer |-> ?left &*& payee |-> ?there &*& left + there == p + q &*& left >= 0
    &*& if (result == 1) { there == q + amount } else { there == q }) {
  let balance = load na(payer);
  if (balance < amount) { return 0; }
  let other = load na(payee);
  store na(payer, balance - amount);
  store na(payee, other + amount);
  return 1;
}
proc main() { }
",
        "accepted 2\n",
    ),
    (
        "// expect: accepted 2
// shows: the loop ends with `i != n`, so that behind it i = n is an equation, which counts in 3 * i too
proc triple(n)
  requires (n >= 0)
  ensures (result == 3 * n) {
  let total = 0;
  let i = 0;
  while (i != n) inv (i <= n &*& total == 3 * i) {
    i = i + 1;
    total = total + 3;
  }
  return total;
}
proc main() { }
",
        "accepted 2\n",
    ),
    (
        "// expect: accepted 1
// shows: the values of two cells change places by way of two variables
proc main() {
  let left = alloc na;
  let right = alloc na;
  store na(left, 3);
  store na(right, -8);
  let x = load na(left);
  let y = load na(right);
  store na(left, y);
  store na(right, x);
  let new_left = load na(left);
  let new_right = load na(right);
  assert (new_left == -8);
  assert (new_right == 3);
  assert (new_left - new_right == y - x);
}
",
        "accepted 1\n",
    ),
    (
        "// expect: accepted 2
// shows: two threads read one cell, with a share of it each; when both have returned it may be written again
proc copy(source, target)
  requires (source |->[1] ?v &*& target |-> _)
  ensures (source |->[1] v &*& target |-> v) {
  let seen = load na(source);
  store na(target, seen);
}
proc main() {
  let source = alloc na;
  store na(source, 7);
  let left = alloc na;
  let right = alloc na;
  par { copy(source, left); copy(source, right); }
  store na(source, 8);
  let x = load na(left);
  let y = load na(right);
  assert (x == 7);
  assert (x == y);
}
",
        "accepted 2\n",
    ),
];

#[test]
fn examples_are_answered_as_they_say(rt: HostRuntime) {
    for (text, said) in EXAMPLES {
        is_answered(&rt, rt.alloc(), text, said);
    }
}
