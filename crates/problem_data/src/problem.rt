//! A problem: what a text with no fault says.

ghost use Rattle.std.specs.Prelude.{◌≡◌, ◌<◌, ◌≤◌, ◌-◌, IfOk, length, map};
ghost use Rattle.problem_data.specs.View.{body_view};
ghost use Rattle.problem_data.specs.ProblemView.{range_data, attribute_data, param_data, demand_data};
ghost use Rattle.problem_data.specs.Accepted.{IsSaid, IsWhollySaid};
ghost use Rattle.problem_data.specs.Pieces.{hull, pieces_at};
ghost use Rattle.problem_data.specs.Places.{place_count, is_absent_at};
ghost use Rattle.problem_data.specs.SomeRules.{AreRules, HasNumbers, numbered, with_rules};
ghost use Rattle.problem_data.specs.WellFormed.{IsWellFormed};

use crate::tree::{MacroBody, ParamKind, Side};
use geo_tokens::name::Name;
use rule_syntax::tree::Formula;
use std::alloc::{AllocError, Global};
use std::marker::Model;
use std::rc::Rc;

/// A box of a shape: in each dimension where it begins, as seen from the origin of an object, and how many cells it has.
pub struct BoxDef {
    offsets: Vec<i64>,
    sizes: Vec<i64>,
}

impl Drop for BoxDef {
    fn drop(self) {
        let BoxDef {
            offsets: _offsets,
            sizes: _sizes,
        } = self;
    }
}

impl Model for BoxDef {
    ghost use Rattle.problem_data.specs.Problem.{BoxData};

    ghost Value = { BoxData };

    ghost view = { λ b. record { offsets = b.offsets.items; sizes = b.sizes.items } };
}

impl BoxDef {
    /// A box.
    pub fn new(offsets: Vec<i64>, sizes: Vec<i64>) -> BoxDef
        ensures { result ≡ record { offsets = offsets.items; sizes = sizes.items } }
    {
        BoxDef { offsets, sizes }
    }

    /// Where it begins in each dimension.
    pub fn offsets(&self) -> &[i64]
        ensures { result.now ≡ self.now.offsets }
    {
        self.offsets.as_slice()
    }

    /// How many cells it has in each dimension.
    pub fn sizes(&self) -> &[i64]
        ensures { result.now ≡ self.now.sizes }
    {
        self.sizes.as_slice()
    }
}

/// A shape: its boxes in file order.
pub struct ShapeDef {
    name: Name,
    boxes: Vec<BoxDef>,
}

impl Drop for ShapeDef {
    fn drop(self) {
        let ShapeDef {
            name: _name,
            boxes: _boxes,
        } = self;
    }
}

impl Model for ShapeDef {
    ghost use Rattle.problem_data.specs.Problem.{ShapeData};
    ghost use Rattle.problem_data.specs.ProblemCode.{shape_code};

    ghost Value = { ShapeData };

    ghost coded = { shape_code };

    ghost view = { λ s. record { name = s.name; boxes = s.boxes.items } };
}

impl ShapeDef {
    /// A shape.
    pub fn new(name: Name, boxes: Vec<BoxDef>) -> ShapeDef
        ensures { result ≡ record { name = name; boxes = boxes.items } }
    {
        ShapeDef { name, boxes }
    }

    /// The shape's name.
    pub fn name(&self) -> &Name
        ensures { result.now ≡ self.now.name }
    {
        &self.name
    }

    /// The shape's boxes, in file order.
    pub fn boxes(&self) -> &[BoxDef]
        ensures { result.now ≡ self.now.boxes }
    {
        self.boxes.as_slice()
    }
}

/// A range of whole numbers, both ends included.
#[derive(Clone, Copy)]
pub struct RangeDef {
    pub low: i64,
    pub high: i64,
}

/// The range of a coordinate, by its pieces.
pub struct PiecesDef {
    ranges: Vec<RangeDef>,
}

impl Drop for PiecesDef {
    fn drop(self) {
        let PiecesDef { ranges: _ranges } = self;
    }
}

impl Model for PiecesDef {
    ghost use Rattle.std.specs.Prelude.{List, map};
    ghost use Rattle.problem_data.specs.Problem.{RangeData};
    ghost use Rattle.problem_data.specs.ProblemCode.{ranges_code};
    ghost use Rattle.problem_data.specs.ProblemView.{range_data};

    ghost Value = { List RangeData };

    ghost coded = { ranges_code };

    ghost view = { λ p. map range_data p.ranges.items };
}

impl PiecesDef {
    /// The range of a coordinate, by its pieces in ascending order.
    pub fn new(ranges: Vec<RangeDef>) -> PiecesDef
        ensures { result ≡ map range_data ranges.items }
    {
        PiecesDef { ranges }
    }

    /// The pieces, in ascending order.
    pub fn ranges(&self) -> &[RangeDef]
        ensures { map range_data result.now ≡ self.now }
    {
        self.ranges.as_slice()
    }
}

// From the low end of one range to the high end of another.
fn between(first: RangeDef, last: RangeDef) -> RangeDef
    ensures { range_data result ≡ record { low = first.low; high = last.high } }
{
    RangeDef {
        low: first.low,
        high: last.high,
    }
}

// From the first low end to the last high end.
fn hull(ranges: &[RangeDef]) -> RangeDef
    requires { 0 < length ranges.now }
    ensures { range_data result ≡ hull (map range_data ranges.now) }
{
    between(ranges[0], ranges[ranges.len() - 1])
}

/// An attribute of an object.
pub struct AttributeDef {
    pub name: Name,
    pub value: i64,
}

impl Drop for AttributeDef {
    fn drop(self) {
        let AttributeDef {
            name: _name,
            value: _,
        } = self;
    }
}

/// An object: its shapes by their positions in the list of shapes, from 0, whether it may be absent,
/// the range of each coordinate of its origin by its pieces, and its attributes.
pub struct ObjectDef {
    name: Name,
    shapes: Vec<u16>,
    may_be_absent: bool,
    pieces: Vec<PiecesDef>,
    attributes: Vec<AttributeDef>,
}

impl Drop for ObjectDef {
    fn drop(self) {
        let ObjectDef {
            name: _name,
            shapes: _shapes,
            may_be_absent: _,
            pieces: _pieces,
            attributes: _attributes,
        } = self;
    }
}

impl Model for ObjectDef {
    ghost use Rattle.std.specs.Prelude.{map};
    ghost use Rattle.problem_data.specs.Problem.{ObjectData};
    ghost use Rattle.problem_data.specs.ProblemCode.{object_code};
    ghost use Rattle.problem_data.specs.ProblemView.{attribute_data};

    ghost Value = { ObjectData };

    ghost coded = { object_code };

    ghost view = { λ o. record {
      name = o.name;
      shapes = o.shapes.items;
      may_be_absent = o.may_be_absent;
      pieces = o.pieces.items;
      attributes = map attribute_data o.attributes.items;
    } };
}

impl ObjectDef {
    /// An object.
    pub fn new(
        name: Name,
        shapes: Vec<u16>,
        may_be_absent: bool,
        pieces: Vec<PiecesDef>,
        attributes: Vec<AttributeDef>,
    ) -> ObjectDef
        ensures { result ≡ record {
          name = name;
          shapes = shapes.items;
          may_be_absent = may_be_absent;
          pieces = pieces.items;
          attributes = map attribute_data attributes.items;
        } }
    {
        ObjectDef {
            name,
            shapes,
            may_be_absent,
            pieces,
            attributes,
        }
    }

    /// The object's name.
    pub fn name(&self) -> &Name
        ensures { result.now ≡ self.now.name }
    {
        &self.name
    }

    /// The positions of its shapes, from 0, as written.
    pub fn shapes(&self) -> &[u16]
        ensures { result.now ≡ self.now.shapes }
    {
        self.shapes.as_slice()
    }

    /// Whether it may be absent.
    pub fn may_be_absent(&self) -> bool
        ensures { result ≡ self.now.may_be_absent }
    {
        self.may_be_absent
    }

    /// How many places it has: those of its shapes, and one behind them where it may be absent.
    pub fn places(&self) -> usize
        requires few { length self.now.shapes ≤ 16 }
        ensures { result ≡ place_count self.now }
    {
        if self.may_be_absent {
            self.shapes.len() + 1
        } else {
            self.shapes.len()
        }
    }

    /// Whether it is absent at this place.
    pub fn is_absent_at(&self, place: usize) -> bool
        requires few { length self.now.shapes ≤ 16 }
        ensures { result ≡ is_absent_at self.now place }
    {
        self.may_be_absent && place == self.shapes.len() + 1
    }

    /// The range of each coordinate of its origin, by its pieces.
    pub fn pieces(&self) -> &[PiecesDef]
        ensures { result.now ≡ self.now.pieces }
    {
        self.pieces.as_slice()
    }

    /// From the least number of a dimension to the greatest.
    pub fn hull(&self, d: usize) -> RangeDef
        requires dimension { d < length self.now.pieces }
        requires some { 0 < length (pieces_at self.now d) }
        ensures { range_data result ≡ hull (pieces_at self.now d) }
    {
        hull(self.pieces[d].ranges())
    }

    /// Its attributes, as written.
    pub fn attributes(&self) -> &[AttributeDef]
        ensures { map attribute_data result.now ≡ self.now.attributes }
    {
        self.attributes.as_slice()
    }
}

/// A parameter of a macro.
pub struct ParamDef {
    pub name: Name,
    pub kind: ParamKind,
}

impl Drop for ParamDef {
    fn drop(self) {
        let ParamDef {
            name: _name,
            kind: _,
        } = self;
    }
}

/// A macro, with the place of its name in the text.
pub struct MacroDef {
    place: u64,
    name: Name,
    params: Vec<ParamDef>,
    body: MacroBody,
}

impl Drop for MacroDef {
    fn drop(self) {
        let MacroDef {
            place: _,
            name: _name,
            params: _params,
            body: _body,
        } = self;
    }
}

impl Model for MacroDef {
    ghost use Rattle.std.specs.Prelude.{map};
    ghost use Rattle.problem_data.specs.Problem.{MacroData};
    ghost use Rattle.problem_data.specs.ProblemCode.{macro_code};
    ghost use Rattle.problem_data.specs.View.{body_view};
    ghost use Rattle.problem_data.specs.ProblemView.{param_data};

    ghost Value = { MacroData };

    ghost coded = { macro_code };

    ghost view = { λ m. record {
      place = m.place;
      name = m.name;
      params = map param_data m.params.items;
      body = body_view m.body;
    } };
}

impl MacroDef {
    /// A macro.
    pub fn new(place: u64, name: Name, params: Vec<ParamDef>, body: MacroBody) -> MacroDef
        ensures { result ≡ record {
          place = place;
          name = name;
          params = map param_data params.items;
          body = body_view body;
        } }
    {
        MacroDef {
            place,
            name,
            params,
            body,
        }
    }

    /// How many bytes of the text stand before its name.
    pub fn place(&self) -> u64
        ensures { result ≡ self.now.place }
    {
        self.place
    }

    /// The macro's name.
    pub fn name(&self) -> &Name
        ensures { result.now ≡ self.now.name }
    {
        &self.name
    }

    /// Its parameters.
    pub fn params(&self) -> &[ParamDef]
        ensures { map param_data result.now ≡ self.now.params }
    {
        self.params.as_slice()
    }

    /// What it stands for.
    pub fn body(&self) -> &MacroBody
        ensures { body_view result.now ≡ self.now.body }
    {
        &self.body
    }
}

/// What a rule asks for.
#[derive(Drop)]
pub enum Demand {
    /// No two objects share a cell.
    Apart,
    /// Each cell of each object is inside these ranges.
    Within(Vec<RangeDef>),
    /// The formula is true.
    Plain(Formula),
}

/// A rule, with the place of its name in the text. Problems with some of the same rules share what
/// it asks for.
pub struct RuleDef {
    place: u64,
    name: Name,
    demand: Rc<Demand>,
}

impl Drop for RuleDef {
    fn drop(self) {
        let RuleDef {
            place: _,
            name: _name,
            demand: _demand,
        } = self;
    }
}

impl Model for RuleDef {
    ghost use Rattle.problem_data.specs.Problem.{RuleData};
    ghost use Rattle.problem_data.specs.ProblemCode.{rule_code};
    ghost use Rattle.problem_data.specs.ProblemView.{demand_data};

    ghost Value = { RuleData };

    ghost coded = { rule_code };

    ghost view = { λ r. record {
      place = r.place;
      name = r.name;
      demand = demand_data r.demand.value;
    } };
}

impl RuleDef {
    /// A rule.
    pub fn new(alloc: Global, place: u64, name: Name, demand: Demand) -> Result<RuleDef, AllocError>
        ensures { IfOk result (λ r. r
            ≡ record { place = place; name = name; demand = demand_data demand }) }
    {
        let demand = Rc::new(alloc, demand)?;
        Ok(RuleDef {
            place,
            name,
            demand,
        })
    }

    /// The same rule once more, which shares what it asks for.
    pub fn share(&self, alloc: Global) -> Result<RuleDef, AllocError>
        ensures { IfOk result (λ r. r ≡ self.now) }
    {
        let name = self.name.try_clone(alloc)?;
        let demand = self.demand.clone()?;
        Ok(RuleDef {
            place: self.place,
            name,
            demand,
        })
    }

    /// How many bytes of the text stand before its name.
    pub fn place(&self) -> u64
        ensures { result ≡ self.now.place }
    {
        self.place
    }

    /// The rule's name.
    pub fn name(&self) -> &Name
        ensures { result.now ≡ self.now.name }
    {
        &self.name
    }

    /// What it asks for.
    pub fn demand(&self) -> &Demand
        ensures { demand_data result.now ≡ self.now.demand }
    {
        self.demand.as_ref()
    }
}

/// A problem. Some text says it, or one that it is with further rules; such problems share their
/// shapes, objects, macros and what their rules ask for.
pub struct Problem {
    version: u8,
    dims: usize,
    shapes: Rc<Vec<ShapeDef>>,
    objects: Rc<Vec<ObjectDef>>,
    macros: Rc<Vec<MacroDef>>,
    rules: Vec<RuleDef>,
    order: Vec<u16>,
    sides: Vec<Side>,
}

/// Written out, since a derived one, with those of all parts, is made and proved anew in each crate that drops a problem.
impl Drop for Problem {
    fn drop(self) {
        let Problem {
            version: _,
            dims: _dims,
            shapes: _shapes,
            objects: _objects,
            macros: _macros,
            rules: _rules,
            order: _order,
            sides: _sides,
        } = self;
    }
}

impl Model for Problem {
    ghost use Rattle.problem_data.specs.Problem.{ProblemData};
    ghost use Rattle.problem_data.specs.ProblemCode.{problem_code};

    ghost Value = { ProblemData };

    ghost coded = { problem_code };

    ghost use Rattle.problem_data.specs.Accepted.{IsSaid};

    ghost view = { λ p. record {
      version = p.version;
      dims = p.dims;
      shapes = p.shapes.value.items;
      objects = p.objects.value.items;
      macros = p.macros.value.items;
      rules = p.rules.items;
      order = p.order.items;
      sides = p.sides.items;
    } };

    ghost invariant = { λ p. IsSaid (record {
      version = p.version;
      dims = p.dims;
      shapes = p.shapes.value.items;
      objects = p.objects.value.items;
      macros = p.macros.value.items;
      rules = p.rules.items;
      order = p.order.items;
      sides = p.sides.items;
    }) };
}

// The rules of these numbers, from 1.
fn shared_rules(alloc: Global, rules: &[RuleDef], keep: &[u16]) -> Result<Vec<RuleDef>, AllocError>
    requires { HasNumbers (length rules.now) keep.now }
    ensures { IfOk result (λ v. v.items ≡ map (numbered rules.now) keep.now) }
{
    let mut shared = Vec::new(alloc);
    for n in keep {
        shared.push(rules[*n as usize - 1].share(alloc)?)?;
    }
    Ok(shared)
}

impl Problem {
    /// A problem that some text says.
    pub fn new(
        version: u8,
        dims: usize,
        shapes: Rc<Vec<ShapeDef>>,
        objects: Rc<Vec<ObjectDef>>,
        macros: Rc<Vec<MacroDef>>,
        rules: Vec<RuleDef>,
        order: Vec<u16>,
        sides: Vec<Side>,
    ) -> Problem
        requires { IsWhollySaid (record {
          version = version;
          dims = dims;
          shapes = shapes.value.items;
          objects = objects.value.items;
          macros = macros.value.items;
          rules = rules.items;
          order = order.items;
          sides = sides.items;
        }) }
        ensures { result ≡ record {
          version = version;
          dims = dims;
          shapes = shapes.value.items;
          objects = objects.value.items;
          macros = macros.value.items;
          rules = rules.items;
          order = order.items;
          sides = sides.items;
        } }
    {
        Problem {
            version,
            dims,
            shapes,
            objects,
            macros,
            rules,
            order,
            sides,
        }
    }

    /// What holds of every problem: some text says it, or one that it is with further rules, so it
    /// is well formed. It does nothing.
    pub fn is_said(&self)
        ensures said { IsSaid self.now }
        ensures formed { IsWellFormed self.now }
    {
        let _ = &self.dims;
    }

    /// The version of its text's format.
    pub fn version(&self) -> u8
        ensures { result ≡ self.now.version }
    {
        self.version
    }

    /// The number of dimensions.
    pub fn dims(&self) -> usize
        ensures { result ≡ self.now.dims }
    {
        self.dims
    }

    /// The shapes, in file order.
    pub fn shapes(&self) -> &[ShapeDef]
        ensures { result.now ≡ self.now.shapes }
    {
        self.shapes.as_ref().as_slice()
    }

    /// The objects, in file order.
    pub fn objects(&self) -> &[ObjectDef]
        ensures { result.now ≡ self.now.objects }
    {
        self.objects.as_ref().as_slice()
    }

    /// The macros, in file order.
    pub fn macros(&self) -> &[MacroDef]
        ensures { result.now ≡ self.now.macros }
    {
        self.macros.as_ref().as_slice()
    }

    /// The rules, in file order.
    pub fn rules(&self) -> &[RuleDef]
        ensures { result.now ≡ self.now.rules }
    {
        self.rules.as_slice()
    }

    /// The positions of the objects, from 0, in the order in which the search takes them.
    pub fn search_order(&self) -> &[u16]
        ensures { result.now ≡ self.now.order }
    {
        self.order.as_slice()
    }

    /// For each dimension the end from which its values are tried.
    pub fn sides(&self) -> &[Side]
        ensures { result.now ≡ self.now.sides }
    {
        self.sides.as_slice()
    }
}

/// The problem with the rules of these numbers alone, from 1 in file order. It shares its parts with
/// the whole one.
pub fn with_rules(alloc: Global, problem: &Problem, keep: &[u16]) -> Result<Problem, AllocError>
    requires { AreRules problem.now keep.now }
    ensures { IfOk result (λ q. q ≡ with_rules problem.now keep.now) }
{
    let rules = shared_rules(alloc, problem.rules(), keep)?;
    let order = Vec::from_slice(alloc, problem.search_order())?;
    let sides = Vec::from_slice(alloc, problem.sides())?;
    Ok(Problem {
        version: problem.version,
        dims: problem.dims,
        shapes: problem.shapes.clone()?,
        objects: problem.objects.clone()?,
        macros: problem.macros.clone()?,
        rules,
        order,
        sides,
    })
}
