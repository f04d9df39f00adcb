//! The objects of a run.

ghost use Rattle.std.specs.Prelude.{ℕ, false, ◌≡◌, ◌+◌, ◌-◌, ◌*◌, ◌^◌, ◌<◌, ◌≤◌, ◌↔◌, IsTrue, Some, None, OnSome, IfSome, IfNone, IsSomeAnd, length};
ghost use Rattle.std.specs.Bool.{OnTrue, OnFalse};
ghost use Rattle.object_store.specs.declared.body.Body0.TheVariants as bodies;
ghost use Rattle.object_store.specs.declared.object.StoredObject.{StoredObject};
ghost use Rattle.object_store.specs.Weights.{weight_of, element_size, capped};
ghost use Rattle.object_store.specs.Heap.{used, empty, IsMade, body_at, hidden_at, changed, with_hidden, with_body, IsSound, HasParts};
ghost use Rattle.object_store.specs.Making.{Makes, MakesUncounted, has_room, new_array};
ghost use Rattle.object_store.specs.Elements.{HasField, with_field, HasElement, with_element, HasBoxed, with_boxed};
ghost use Rattle.object_store.specs.Lending.{bytes_at, sent_away, given};

use crate::arrays::{give, take, zeros};
use crate::body::Body0;
use crate::elements::{put_boxed, put_element, put_field};
use crate::fault::ObjBad;
use crate::hidden::Hidden;
use crate::object::StoredObject;
use crate::weights::{array_weight, weight};
use bound_base::{Bytes, NoMemory, Units};
use managed_value::{ObjId, TypeId, Value, Values};
use std::alloc::Global;
use std::marker::Model;

/// The objects of a run. None is ever removed.
#[derive(Drop)]
pub struct ObjectStore {
    objects: Vec<StoredObject>,
    limit: u64,
    used: u64,
}

impl Model for ObjectStore {
    ghost use Rattle.object_store.specs.Heap.{ManagedHeap, IsKept};
    ghost use Rattle.managed_value.specs.contracts.value.Value as value;
    ghost use Rattle.std.specs.Coded.{codes};

    ghost Value = { ManagedHeap };

    ghost coded = { Prim.hlevel (codes, value.the_row.coded) };

    ghost view = { λ s. record { objects = s.objects.items; limit = s.limit } };

    ghost invariant = { λ s. IsKept (record { objects = s.objects.items; limit = s.limit }) s.used };
}

impl ObjectStore {
    /// No objects, of which together at most `limit` bytes may count. It takes no memory.
    pub fn new(alloc: Global, limit: u64) -> ObjectStore
        requires { limit < 2 ^ 64 - 1 }
        ensures { result ≡ empty limit }
    {
        ObjectStore {
            objects: Vec::new(alloc),
            limit,
            used: 0,
        }
    }

    /// The bytes that all objects count.
    pub fn used(&self) -> u64
        ensures { result ≡ used self.now }
    {
        self.used
    }

    /// The bytes that may count.
    pub fn limit(&self) -> u64
        ensures { result ≡ self.now.limit }
    {
        self.limit
    }

    /// Makes an object of a class, with these fields.
    ///
    /// `Full` where the bytes that count would pass the limit, and nowhere else; `Memory` is for want of memory where
    /// they wouldn't. With either nothing changes. So it is for each call that makes an object that counts.
    pub fn new_object(&mut self, t: TypeId, fields: Values) -> Result<ObjId, ObjBad>
        ensures { Makes self.old (bodies.Object t fields) result self.new }
    {
        self.add(Body0::Object(t, fields))
    }

    /// Makes a box of a value.
    pub fn new_box(&mut self, t: TypeId, v: Value) -> Result<ObjId, ObjBad>
        ensures { Makes self.old (bodies.Box t v) result self.new }
    {
        self.add(Body0::Box(t, v))
    }

    /// Makes a string.
    pub fn new_string(&mut self, u: Units) -> Result<ObjId, ObjBad>
        ensures { Makes self.old (bodies.Text u) result self.new }
    {
        self.add(Body0::Text(u))
    }

    /// Makes a delegate: the object that its method is called on or none, and the method.
    pub fn new_delegate(&mut self, t: TypeId, target: Value, method: u32) -> Result<ObjId, ObjBad>
        ensures { Makes self.old (bodies.Delegate t target method) result self.new }
    {
        self.add(Body0::Delegate(t, target, method))
    }

    /// Makes a delegate for native code at an address.
    pub fn new_native(&mut self, t: TypeId, addr: u64) -> Result<ObjId, ObjBad>
        ensures { Makes self.old (bodies.Native t addr) result self.new }
    {
        self.add(Body0::Native(t, addr))
    }

    /// Makes a builder of a text, which has room for so many code units.
    pub fn new_builder(&mut self, u: Units, capacity: u32) -> Result<ObjId, ObjBad>
        requires { length u ≤ capacity }
        ensures { Makes self.old (bodies.Builder u capacity) result self.new }
    {
        self.add(Body0::Builder(u, capacity))
    }

    /// Makes an array of so many elements: zeros of so many bytes each, or with a width of 0 values equal to `zero`.
    /// Nothing is made before there is known to be room.
    pub fn new_array(
        &mut self,
        elem: TypeId,
        width: u32,
        zero: Value,
        len: u64,
    ) -> Result<ObjId, ObjBad>
        ensures { Makes self.old (new_array elem width zero len) result self.new }
    {
        if !self.has_room(array_weight(width, len)) {
            return Err(ObjBad::Full);
        }
        let body = zeros(*self.objects.allocator(), elem, width, &zero, len)?;
        self.add(body)
    }

    /// Makes an object that counts nothing: one that the host itself makes.
    pub fn new_hidden(&mut self, t: TypeId, fields: Values, h: Hidden) -> Result<ObjId, NoMemory>
        ensures { MakesUncounted self.old (bodies.Object t fields) h result self.new }
    {
        let id = ObjId(self.objects.len() as u64);
        self.objects.push(StoredObject {
            body: Body0::Object(t, fields),
            hidden: h,
            counts: false,
            away: false,
        })?;
        Ok(id)
    }

    /// The object is one that this store made.
    pub fn is_made(&self, o: ObjId) -> bool
        ensures { IsTrue result ↔ IsMade self.now o }
    {
        o.0 < self.objects.len() as u64
    }

    /// What the object keeps beside its fields.
    pub fn hidden(&self, o: ObjId) -> Hidden
        requires { IsMade self.now o }
        ensures { hidden_at self.now o ≡ Some result }
    {
        self.objects[o.0 as usize].hidden
    }

    /// Has the object keep something else beside its fields.
    pub fn set_hidden(&mut self, o: ObjId, h: Hidden)
        requires { IsMade self.old o }
        ensures { self.new ≡ changed self.old o (with_hidden h) }
    {
        let object = &mut self.objects[o.0 as usize];
        object.hidden = h;
    }

    /// What the object is. The bytes of an array are none while they are away.
    pub fn body(&self, o: ObjId) -> &Body0
        requires { IsMade self.now o }
        ensures { body_at self.now o ≡ Some result.now }
    {
        &self.objects[o.0 as usize].body
    }

    /// Puts a value in place of a field. False, with nothing changed, exactly where the object has no such field of the
    /// value's kind. It takes no memory.
    pub fn set_field(&mut self, o: ObjId, k: u32, v: Value) -> bool
        requires { IsMade self.old o }
        ensures fits { IsTrue result ↔ IsSomeAnd (body_at self.old o) (λ body. HasField body k v) }
        ensures done { OnTrue result (self.new ≡ changed self.old o (with_body (λ body. with_field body k v))) }
        ensures left { OnFalse result (self.new ≡ self.old) }
    {
        let object = &mut self.objects[o.0 as usize];
        put_field(&mut object.body, k, v)
    }

    /// Puts a value in place of an element. False, with nothing changed, exactly where the array has no such element of
    /// the value's kind. It takes no memory.
    ///
    /// Of an array that is kept as bytes, an int32 is of the kind of an element of up to 4 bytes, of which the low ones
    /// are kept; an int64 or a native int of one of 8; and a value that is kept as bytes of one of as many.
    pub fn set_element(&mut self, o: ObjId, k: u64, v: Value) -> bool
        requires { IsMade self.old o }
        ensures fits { IsTrue result ↔ IsSomeAnd (body_at self.old o) (λ body. HasElement body k v) }
        ensures done { OnTrue result (self.new ≡ changed self.old o (with_body (λ body. with_element body k v))) }
        ensures left { OnFalse result (self.new ≡ self.old) }
    {
        let object = &mut self.objects[o.0 as usize];
        put_element(&mut object.body, k, v)
    }

    /// Puts a value in place of the one in a box. False, with nothing changed, exactly where the object is no box of a
    /// value of that kind. It takes no memory.
    pub fn set_boxed(&mut self, o: ObjId, v: Value) -> bool
        requires { IsMade self.old o }
        ensures fits { IsTrue result ↔ IsSomeAnd (body_at self.old o) (λ body. HasBoxed body v) }
        ensures done { OnTrue result (self.new ≡ changed self.old o (with_body (λ body. with_boxed body v))) }
        ensures left { OnFalse result (self.new ≡ self.old) }
    {
        let object = &mut self.objects[o.0 as usize];
        put_boxed(&mut object.body, v)
    }

    /// Takes the bytes of an array, which are moved and not copied. None exactly where the object isn't an array that is
    /// kept as bytes and has them, and then nothing changes. It takes no memory.
    pub fn take_body(&mut self, o: ObjId) -> Option<Bytes>
        requires { IsMade self.old o }
        ensures bytes { result ≡ bytes_at self.old o }
        ensures taken { OnSome result (self.new ≡ sent_away self.old o) }
        ensures unchanged { IfNone result (self.new ≡ self.old) }
    {
        let alloc = *self.objects.allocator();
        let object = &mut self.objects[o.0 as usize];
        take(alloc, object)
    }

    /// Gives an array its bytes back, which are moved and not copied. Where they aren't away, or were more or fewer, it
    /// hands them back, and nothing changes. It takes no memory.
    pub fn give_body(&mut self, o: ObjId, b: Bytes) -> Option<Bytes>
        requires { IsMade self.old o }
        ensures done { IfNone result (given self.old o b ≡ Some self.new) }
        ensures refused { OnSome result (given self.old o b ≡ None) }
        ensures unchanged { OnSome result (self.new ≡ self.old) }
        ensures back { IfSome result (λ back. back ≡ b) }
    {
        let object = &mut self.objects[o.0 as usize];
        give(object, b)
    }

    /// The bytes that count are within the limit, which is below 2^64 - 1, and each object has its parts. The contract is
    /// the law; the call does nothing.
    pub fn is_sound(&self)
        ensures { IsSound self.now }
    {
        let _objects = &self.objects;
    }

    /// Makes an object that counts.
    fn add(&mut self, body: Body0) -> Result<ObjId, ObjBad>
        requires { HasParts false body }
        ensures { Makes self.old body result self.new }
    {
        let weight = weight(&body);
        if !self.has_room(weight) {
            return Err(ObjBad::Full);
        }
        let id = ObjId(self.objects.len() as u64);
        self.objects.push(StoredObject {
            body,
            hidden: Hidden::Nothing,
            counts: true,
            away: false,
        })?;
        self.used += weight;
        Ok(id)
    }

    /// So many bytes more are within the limit: the number is theirs, or 2^64 - 1 where they are more.
    fn has_room(&self, weight: u64) -> bool
        ensures { (bytes : ℕ) → weight ≡ capped bytes → result ≡ has_room self.now bytes }
    {
        weight <= self.limit - self.used
    }
}
