//! The programs of `examples` that fail, each with the answer that its first line names.
//! `tools/examples_as_tests.py` writes this file.
use crate::refusals::is_answered;

const MUTANTS: [(&str, &str); 28] = [
    (
        "// expect: failed second 24:5 share
// shows: one of the readers writes, while the other may be reading
inv Announced(cell) of flag
  { if (flag == 0) { emp } else { cell |->[4611686018427387904] 7 } }
  { if (flag == 0) { emp } else { cell |->[4611686018427387904] 7 } }
proc announce(flag, cell)
  requires (Rel(flag, Announced(cell)) &*& cell |-> _) {
  store na(cell, 7);
  store rel(flag, 1);
}
proc first(flag, cell)
  requires (Init(flag) &*& Acq(flag, Announced(cell), 0, {})) {
  let seen = load acq(flag);
  if (seen != 0) {
    let x = load na(cell);
    assert (x == 7);
  }
}
proc second(flag, cell)
  requires (Init(flag) &*& Acq(flag, Announced(cell), 1, {})) {
  let seen = load acq(flag);
  if (seen != 0) {
    let x = load na(cell);
    store na(cell, x + 1);
  }
}
proc main() {
  let cell = alloc na;
  let flag = alloc acq Announced(cell);
  store rel(flag, 0);
  par { announce(flag, cell); first(flag, cell); second(flag, cell); }
}
",
        "failed second 24:5 share\n",
    ),
    (
        "// expect: failed main 31:3 acq
// shows: both readers ask for the first part, and there is one of it
inv Announced(cell) of flag
  { if (flag == 0) { emp } else { cell |->[4611686018427387904] 7 } }
  { if (flag == 0) { emp } else { cell |->[4611686018427387904] 7 } }
proc announce(flag, cell)
  requires (Rel(flag, Announced(cell)) &*& cell |-> _) {
  store na(cell, 7);
  store rel(flag, 1);
}
proc first(flag, cell)
  requires (Init(flag) &*& Acq(flag, Announced(cell), 0, {})) {
  let seen = load acq(flag);
  if (seen != 0) {
    let x = load na(cell);
    assert (x == 7);
  }
}
proc second(flag, cell)
  requires (Init(flag) &*& Acq(flag, Announced(cell), 1, {})) {
  let seen = load acq(flag);
  if (seen != 0) {
    let x = load na(cell);
    assert (x == 7);
  }
}
proc main() {
  let cell = alloc na;
  let flag = alloc acq Announced(cell);
  store rel(flag, 0);
  par { announce(flag, cell); first(flag, cell); first(flag, cell); }
}
",
        "failed main 31:3 acq\n",
    ),
    (
        "// expect: failed await 13:3 acq
// shows: 0 was read, so nothing more is gained of 0; the invariant wants leave that would still gain of it
inv Ready(cell) of flag { if (flag == 0) { emp } else { cell |-> 7 } }
proc fill(flag, cell)
  requires (Rel(flag, Ready(cell)) &*& cell |-> _) {
  store na(cell, 7);
  store rel(flag, 1);
}
proc await(flag, cell)
  requires (Init(flag) &*& Acq(flag, Ready(cell), 0, {}))
  ensures (result == 7) {
  let seen = load acq(flag);
  while (seen == 0)
    inv (Init(flag) &*& if (seen == 0) { Acq(flag, Ready(cell), 0, {}) } else { cell |-> 7 }) {
    seen = load acq(flag);
  }
  let found = load na(cell);
  free(cell);
  return found;
}
proc main() {
  let cell = alloc na;
  let flag = alloc acq Ready(cell);
  store rel(flag, 0);
  par { fill(flag, cell); await(flag, cell); }
}
",
        "failed await 13:3 acq\n",
    ),
    (
        "// expect: failed await 13:3 points
// shows: the flag is looked at once, and the cell is used whatever was seen
inv Ready(cell) of flag { if (flag == 0) { emp } else { cell |-> 7 } }
proc fill(flag, cell)
  requires (Rel(flag, Ready(cell)) &*& cell |-> _) {
  store na(cell, 7);
  store rel(flag, 1);
}
proc await(flag, cell)
  requires (Init(flag) &*& Acq(flag, Ready(cell), 0, {}))
  ensures (result == 7) {
  let seen = load acq(flag);
  let found = load na(cell);
  free(cell);
  return found;
}
proc main() {
  let cell = alloc na;
  let flag = alloc acq Ready(cell);
  store rel(flag, 0);
  par { fill(flag, cell); await(flag, cell); }
}
",
        "failed await 13:3 points\n",
    ),
    (
        "// expect: failed await 17:3 points
// shows: the acquire fence behind the relaxed loads is missing
inv Ready(cell) of flag { if (flag == 0) { emp } else { cell |-> 7 } }
proc fill(flag, cell)
  requires (Rel(flag, Ready(cell)) &*& cell |-> _) {
  store na(cell, 7);
  store rel(flag, 1);
}
proc await(flag, cell)
  requires (Init(flag) &*& Acq(flag, Ready(cell), 0, {}))
  ensures (result == 7) {
  let seen = load rlx(flag);
  while (seen == 0)
    inv (Init(flag) &*& if (seen == 0) { Acq(flag, Ready(cell), 0, {0}) } else { down(cell |-> 7) }) {
    seen = load rlx(flag);
  }
  let found = load na(cell);
  free(cell);
  return found;
}
proc main() {
  let cell = alloc na;
  let flag = alloc acq Ready(cell);
  store rel(flag, 0);
  par { fill(flag, cell); await(flag, cell); }
}
",
        "failed await 17:3 points\n",
    ),
    (
        "// expect: failed raise 7:3 share
// shows: a cell is written with one share of it; another thread may be reading it
proc raise(cell)
  requires (cell |->[1] ?v)
  ensures (cell |->[1] v + 1) {
  let seen = load na(cell);
  store na(cell, seen + 1);
}
proc main() { }
",
        "failed raise 7:3 share\n",
    ),
    (
        "// expect: failed consume 35:3 acq
// shows: the second round does not leave out what the first one has taken already
inv Full(slot) of n { if (n == 0) { emp } else { slot |-> 10 * n } }
inv Empty(slot) of n { if (n == 0) { emp } else { slot |-> _ } }
proc produce(slot, full, empty)
  requires (slot |-> _ &*& Rel(full, Full(slot)) &*& Init(empty) &*& Acq(empty, Empty(slot), 0, {})) {
  store na(slot, 10);
  store rel(full, 1);
  let taken = load acq(empty);
  while (taken == 0)
    inv (Init(empty) &*& if (taken == 0) { Acq(empty, Empty(slot), 0, {0}) } else { slot |-> _ }) {
    taken = load acq(empty);
  }
  store na(slot, 20);
  store rel(full, 2);
}
proc next(slot, full, last)
  requires (Init(full) &*& Acq(full, Full(slot), 0, {0, last}))
  ensures (slot |-> 10 * result &*& Acq(full, Full(slot), 0, {0, last, result}) &*& result != last) {
  let n = 0;
  while (n == 0)
    inv (Init(full) &*& if (n == 0) { Acq(full, Full(slot), 0, {0, last}) }
      else { slot |-> 10 * n &*& Acq(full, Full(slot), 0, {0, last, n}) &*& n != last }) {
    n = load acq(full);
    if (n == last) { n = 0; }
  }
  return n;
}
proc consume(slot, full, empty)
  requires (Init(full) &*& Acq(full, Full(slot), 0, {}) &*& Rel(empty, Empty(slot))) {
  let first = call next(slot, full, 0);
  let x = load na(slot);
  assert (x == 10 * first);
  store rel(empty, 1);
  let second = call next(slot, full, 0);
  let y = load na(slot);
  assert (y == 10 * second);
  free(slot);
}
proc main() {
  let slot = alloc na;
  let full = alloc acq Full(slot);
  let empty = alloc acq Empty(slot);
  store rel(full, 0);
  store rel(empty, 0);
  par { produce(slot, full, empty); consume(slot, full, empty); }
}
",
        "failed consume 35:3 acq\n",
    ),
    (
        "// expect: failed consume 33:3 points
// shows: the slot is given back first and read then
inv Full(slot) of n { if (n == 0) { emp } else { slot |-> 10 * n } }
inv Empty(slot) of n { if (n == 0) { emp } else { slot |-> _ } }
proc produce(slot, full, empty)
  requires (slot |-> _ &*& Rel(full, Full(slot)) &*& Init(empty) &*& Acq(empty, Empty(slot), 0, {})) {
  store na(slot, 10);
  store rel(full, 1);
  let taken = load acq(empty);
  while (taken == 0)
    inv (Init(empty) &*& if (taken == 0) { Acq(empty, Empty(slot), 0, {0}) } else { slot |-> _ }) {
    taken = load acq(empty);
  }
  store na(slot, 20);
  store rel(full, 2);
}
proc next(slot, full, last)
  requires (Init(full) &*& Acq(full, Full(slot), 0, {0, last}))
  ensures (slot |-> 10 * result &*& Acq(full, Full(slot), 0, {0, last, result}) &*& result != last) {
  let n = 0;
  while (n == 0)
    inv (Init(full) &*& if (n == 0) { Acq(full, Full(slot), 0, {0, last}) }
      else { slot |-> 10 * n &*& Acq(full, Full(slot), 0, {0, last, n}) &*& n != last }) {
    n = load acq(full);
    if (n == last) { n = 0; }
  }
  return n;
}
proc consume(slot, full, empty)
  requires (Init(full) &*& Acq(full, Full(slot), 0, {}) &*& Rel(empty, Empty(slot))) {
  let first = call next(slot, full, 0);
  store rel(empty, 1);
  let x = load na(slot);
  assert (x == 10 * first);
  let second = call next(slot, full, first);
  let y = load na(slot);
  assert (y == 10 * second);
  free(slot);
}
proc main() {
  let slot = alloc na;
  let full = alloc acq Full(slot);
  let empty = alloc acq Empty(slot);
  store rel(full, 0);
  store rel(empty, 0);
  par { produce(slot, full, empty); consume(slot, full, empty); }
}
",
        "failed consume 33:3 points\n",
    ),
    (
        "// expect: failed produce 10:3 points
// shows: the slot is filled again before it was emptied
inv Full(slot) of n { if (n == 0) { emp } else { slot |-> 10 * n } }
inv Empty(slot) of n { if (n == 0) { emp } else { slot |-> _ } }
proc produce(slot, full, empty)
  requires (slot |-> _ &*& Rel(full, Full(slot)) &*& Init(empty) &*& Acq(empty, Empty(slot), 0, {})) {
  store na(slot, 10);
  store rel(full, 1);
  let taken = load acq(empty);
  store na(slot, 20);
  store rel(full, 2);
}
proc next(slot, full, last)
  requires (Init(full) &*& Acq(full, Full(slot), 0, {0, last}))
  ensures (slot |-> 10 * result &*& Acq(full, Full(slot), 0, {0, last, result}) &*& result != last) {
  let n = 0;
  while (n == 0)
    inv (Init(full) &*& if (n == 0) { Acq(full, Full(slot), 0, {0, last}) }
      else { slot |-> 10 * n &*& Acq(full, Full(slot), 0, {0, last, n}) &*& n != last }) {
    n = load acq(full);
    if (n == last) { n = 0; }
  }
  return n;
}
proc consume(slot, full, empty)
  requires (Init(full) &*& Acq(full, Full(slot), 0, {}) &*& Rel(empty, Empty(slot))) {
  let first = call next(slot, full, 0);
  let x = load na(slot);
  assert (x == 10 * first);
  store rel(empty, 1);
  let second = call next(slot, full, first);
  let y = load na(slot);
  assert (y == 10 * second);
  free(slot);
}
proc main() {
  let slot = alloc na;
  let full = alloc acq Full(slot);
  let empty = alloc acq Empty(slot);
  store rel(full, 0);
  store rel(empty, 0);
  par { produce(slot, full, empty); consume(slot, full, empty); }
}
",
        "failed produce 10:3 points\n",
    ),
    (
        "// expect: failed empty 7:3 points
// shows: a cell that was given back isn't owned any more
proc empty(cell)
  requires (cell |-> ?held)
  ensures (result == held) {
  free(cell);
  let last = load na(cell);
  return last;
}
proc main() {
  let cell = alloc na;
  store na(cell, 4);
  let last = call empty(cell);
  assert (last == 4);
}
",
        "failed empty 7:3 points\n",
    ),
    (
        "// expect: failed main 9:5 points
// shows: the invariant doesn't own the cell, so the body doesn't either
proc main() {
  let counter = alloc na;
  store na(counter, 0);
  let i = 0;
  while (i < 10) inv (i <= 10) {
    i = i + 1;
    let seen = load na(counter);
    store na(counter, seen + 1);
  }
}
",
        "failed main 9:5 points\n",
    ),
    (
        "// expect: failed swap 10:1 value
// shows: the value on the left is overwritten before it was saved
proc swap(left, right)
  requires (left |-> ?x &*& right |-> ?y)
  ensures (left |-> y &*& right |-> x) {
  let b = load na(right);
  store na(left, b);
  let a = load na(left);
  store na(right, a);
}
proc main() { }
",
        "failed swap 10:1 value\n",
    ),
    (
        "// expect: failed main 7:3 loop
// shows: with i = 10 the body runs once more, and then i <= 10 doesn't hold
proc main() {
  let counter = alloc na;
  store na(counter, 0);
  let i = 0;
  while (i <= 10) inv (counter |-> i &*& i <= 10) {
    let seen = load na(counter);
    store na(counter, seen + 1);
    i = i + 1;
  }
}
",
        "failed main 7:3 loop\n",
    ),
    (
        "// expect: failed transfer 10:1 post
// shows: nothing looks whether the amount is there, so the balance may fall below 0
proc transfer(payer, payee, amount)
  requires (payer |-> ?p &*& payee |-> ?q &*& p >= 0 &*& amount >= 0)
  ensures (payer |-> ?left &*& payee |-> ?there &*& left + there == p + q &*& left >= 0) {
  let balance = load na(payer);
  let other = load na(payee);
  store na(payer, balance - amount);
  store na(payee, other + amount);
}
proc main() { }
",
        "failed transfer 10:1 post\n",
    ),
    (
        "// expect: failed send 7:3 uninit
// shows: the message is sent before the second cell is filled
inv Parcel(low, high) of sent { if (sent == 0) { emp } else { low |-> ?a &*& high |-> ?b &*& a <= b } }
proc send(channel, low, high, first, second)
  requires (Rel(channel, Parcel(low, high)) &*& low |-> _ &*& high |-> _ &*& first <= second) {
  store na(low, first);
  store rel(channel, 1);
  store na(high, second);
}
proc receive(channel, low, high)
  requires (Init(channel) &*& Acq(channel, Parcel(low, high), 0, {}))
  ensures (if (result == 0) { emp } else { low |-> ?a &*& high |-> ?b &*& a <= b }) {
  let sent = load acq(channel);
  return sent;
}
proc unpack(channel, low, high)
  requires (Init(channel) &*& Acq(channel, Parcel(low, high), 0, {})) {
  let sent = call receive(channel, low, high);
  if (sent != 0) {
    let a = load na(low);
    let b = load na(high);
    assert (a <= b);
    free(low);
    free(high);
  }
}
proc main() {
  let low = alloc na;
  let high = alloc na;
  let channel = alloc acq Parcel(low, high);
  store rel(channel, 0);
  par { send(channel, low, high, 4, 9); unpack(channel, low, high); }
}
",
        "failed send 7:3 uninit\n",
    ),
    (
        "// expect: failed send 8:3 cond
// shows: the values are put into the wrong cells, so what the message says of both need not hold
inv Parcel(low, high) of sent { if (sent == 0) { emp } else { low |-> ?a &*& high |-> ?b &*& a <= b } }
proc send(channel, low, high, first, second)
  requires (Rel(channel, Parcel(low, high)) &*& low |-> _ &*& high |-> _ &*& first <= second) {
  store na(low, second);
  store na(high, first);
  store rel(channel, 1);
}
proc receive(channel, low, high)
  requires (Init(channel) &*& Acq(channel, Parcel(low, high), 0, {}))
  ensures (if (result == 0) { emp } else { low |-> ?a &*& high |-> ?b &*& a <= b }) {
  let sent = load acq(channel);
  return sent;
}
proc unpack(channel, low, high)
  requires (Init(channel) &*& Acq(channel, Parcel(low, high), 0, {})) {
  let sent = call receive(channel, low, high);
  if (sent != 0) {
    let a = load na(low);
    let b = load na(high);
    assert (a <= b);
    free(low);
    free(high);
  }
}
proc main() {
  let low = alloc na;
  let high = alloc na;
  let channel = alloc acq Parcel(low, high);
  store rel(channel, 0);
  par { send(channel, low, high, 4, 9); unpack(channel, low, high); }
}
",
        "failed send 8:3 cond\n",
    ),
    (
        "// expect: failed unpack 26:3 acq
// shows: the channel is for one message: what was received once is not received again
inv Parcel(low, high) of sent { if (sent == 0) { emp } else { low |-> ?a &*& high |-> ?b &*& a <= b } }
proc send(channel, low, high, first, second)
  requires (Rel(channel, Parcel(low, high)) &*& low |-> _ &*& high |-> _ &*& first <= second) {
  store na(low, first);
  store na(high, second);
  store rel(channel, 1);
}
proc receive(channel, low, high)
  requires (Init(channel) &*& Acq(channel, Parcel(low, high), 0, {}))
  ensures (if (result == 0) { emp } else { low |-> ?a &*& high |-> ?b &*& a <= b }) {
  let sent = load acq(channel);
  return sent;
}
proc unpack(channel, low, high)
  requires (Init(channel) &*& Acq(channel, Parcel(low, high), 0, {})) {
  let sent = call receive(channel, low, high);
  if (sent != 0) {
    let a = load na(low);
    let b = load na(high);
    assert (a <= b);
    free(low);
    free(high);
  }
  let again = call receive(channel, low, high);
}
proc main() {
  let low = alloc na;
  let high = alloc na;
  let channel = alloc acq Parcel(low, high);
  store rel(channel, 0);
  par { send(channel, low, high, 4, 9); unpack(channel, low, high); }
}
",
        "failed unpack 26:3 acq\n",
    ),
    (
        "// expect: failed post 6:3 uninit
// shows: the price is written behind the release store, so that there is nothing to give away yet
inv Posted(price) of step { if (step == 0) { emp } else { price |-> 250 } }
proc post(board, price)
  requires (Rel(board, Posted(price)) &*& price |-> _) {
  store rel(board, 1);
  store na(price, 250);
}
proc shop(board, price)
  requires (Init(board) &*& Acq(board, Posted(price), 0, {})) {
  let step = load acq(board);
  if (step != 0) {
    let asked = load na(price);
    assert (asked == 250);
    store na(price, 0);
  }
}
proc main() {
  let price = alloc na;
  let board = alloc acq Posted(price);
  store rel(board, 0);
  par { post(board, price); shop(board, price); }
}
",
        "failed post 6:3 uninit\n",
    ),
    (
        "// expect: failed post 7:3 points
// shows: a relaxed store gives nothing away that no release fence has set apart
inv Posted(price) of step { if (step == 0) { emp } else { price |-> 250 } }
proc post(board, price)
  requires (Rel(board, Posted(price)) &*& price |-> _) {
  store na(price, 250);
  store rlx(board, 1);
}
proc shop(board, price)
  requires (Init(board) &*& Acq(board, Posted(price), 0, {})) {
  let step = load rlx(board);
  if (step != 0) {
    fence acq;
    let asked = load na(price);
    assert (asked == 250);
    store na(price, 0);
  }
}
proc main() {
  let price = alloc na;
  let board = alloc acq Posted(price);
  store rel(board, 0);
  par { post(board, price); shop(board, price); }
}
",
        "failed post 7:3 points\n",
    ),
    (
        "// expect: failed take 24:7 points
// shows: the item is freed before the way to the next one is read from it
inv Link() of item
  { if (item == 0) { emp } else { item |-> ?next &*& Init(next) &*& Acq(next, Link(), 0, {}) } }
proc put(tail)
  requires (Rel(tail, Link())) {
  let last = tail;
  while (true) inv (Rel(last, Link())) {
    let next = alloc acq Link();
    store rel(next, 0);
    let item = alloc na;
    store na(item, next);
    store rel(last, item);
    last = next;
  }
}
proc take(head)
  requires (Init(head) &*& Acq(head, Link(), 0, {})) {
  let first = head;
  while (true) inv (Init(first) &*& Acq(first, Link(), 0, {0})) {
    let item = load acq(first);
    if (item != 0) {
      free(item);
      first = load na(item);
    }
  }
}
proc main() {
  let queue = alloc acq Link();
  store rel(queue, 0);
  par { put(queue); take(queue); }
}
",
        "failed take 24:7 points\n",
    ),
    (
        "// expect: failed put 12:5 init
// shows: the next location is handed over before anything was stored to it, so it may not be read yet
inv Link() of item
  { if (item == 0) { emp } else { item |-> ?next &*& Init(next) &*& Acq(next, Link(), 0, {}) } }
proc put(tail)
  requires (Rel(tail, Link())) {
  let last = tail;
  while (true) inv (Rel(last, Link())) {
    let next = alloc acq Link();
    let item = alloc na;
    store na(item, next);
    store rel(last, item);
    last = next;
  }
}
proc take(head)
  requires (Init(head) &*& Acq(head, Link(), 0, {})) {
  let first = head;
  while (true) inv (Init(first) &*& Acq(first, Link(), 0, {0})) {
    let item = load acq(first);
    if (item != 0) {
      first = load na(item);
      free(item);
    }
  }
}
proc main() {
  let queue = alloc acq Link();
  store rel(queue, 0);
  par { put(queue); take(queue); }
}
",
        "failed put 12:5 init\n",
    ),
    (
        "// expect: failed shop 14:5 points
// shows: what a relaxed load saw isn't owned before an acquire fence
inv Posted(price) of step { if (step == 0) { emp } else { price |-> 250 } }
proc post(board, price)
  requires (Rel(board, Posted(price)) &*& price |-> _) {
  store na(price, 250);
  fence rel (price |-> 250);
  store rlx(board, 1);
}
proc shop(board, price)
  requires (Init(board) &*& Acq(board, Posted(price), 0, {})) {
  let step = load rlx(board);
  if (step != 0) {
    let asked = load na(price);
    assert (asked == 250);
    store na(price, 0);
  }
}
proc main() {
  let price = alloc na;
  let board = alloc acq Posted(price);
  store rel(board, 0);
  par { post(board, price); shop(board, price); }
}
",
        "failed shop 14:5 points\n",
    ),
    (
        "// expect: failed triple 12:3 post
// shows: the result is right, but i = n is known by two bounds only, which say nothing of 3 * i
proc triple(n)
  requires (n >= 0)
  ensures (result == 3 * n) {
  let total = 0;
  let i = 0;
  while (i < n) inv (i <= n &*& total == 3 * i) {
    i = i + 1;
    total = total + 3;
  }
  return total;
}
proc main() { }
",
        "failed triple 12:3 post\n",
    ),
    (
        "// expect: failed main 11:3 points
// shows: two threads would write one cell; the first takes all of it, so that nothing is left for the second
proc raise(cell)
  requires (cell |-> ?v)
  ensures (cell |-> v + 1) {
  let seen = load na(cell);
  store na(cell, seen + 1);
}
proc main() {
  let cell = alloc na; store na(cell, 0);
  par { raise(cell); raise(cell); }
}
",
        "failed main 11:3 points\n",
    ),
    (
        "// expect: failed main 7:3 uninit
// shows: the second cell is loaded before anything is stored to it
proc main() {
  let c = alloc na;
  let d = alloc na;
  store na(c, 1);
  let x = load na(d);
  store na(c, x);
}
",
        "failed main 7:3 uninit\n",
    ),
    (
        "// expect: failed main 6:3 points
// shows: the address behind a cell is not owned; cells are single, and there are no arrays
proc main() {
  let c = alloc na;
  store na(c, 1);
  store na(c + 1, 2);
}
",
        "failed main 6:3 points\n",
    ),
    (
        "// expect: failed main 12:3 pre
// shows: the second call may find too little, since the first one doesn't say how much it leaves
proc withdraw(account, amount)
  requires (account |-> ?before &*& amount >= 0 &*& amount <= before)
  ensures (account |-> ?after &*& after <= before) {
  let balance = load na(account);
  store na(account, balance - amount);
}
proc main() {
  let account = alloc na;
  store na(account, 50); call withdraw(account, 20);
  call withdraw(account, 30);
}
",
        "failed main 12:3 pre\n",
    ),
    (
        "// expect: failed main 8:3 assert
// shows: a variable keeps the value it was given, also when the cell gets another one
proc main() {
  let c = alloc na;
  store na(c, 7);
  let x = load na(c);
  store na(c, x + 1);
  assert (x == 8);
}
",
        "failed main 8:3 assert\n",
    ),
];

#[test]
fn mutants_are_answered_as_they_say(rt: HostRuntime) {
    for (text, said) in MUTANTS {
        is_answered(&rt, rt.alloc(), text, said);
    }
}
