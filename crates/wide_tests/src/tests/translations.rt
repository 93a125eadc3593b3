//! Translations, worked out by hand, and expressions that are not translated.

use super::cells;
use cel_reader::Expr;
use std::alloc::{AllocError, Global};
use std::test::Fail;
use wide_kinds::{Kind, ValueKind};
use wide_reader::read;
use wide_translation::{Scope, TranslationError, translate, translate_condition};

/// One row per line: a wide expression, a broken bar and its translation.
#[rattlefmt::skip]
const TRANSLATIONS: &str = r#"object.spec.?replicas.orValue(1) <= 5¦(object.spec != null && has(object.spec.replicas) ? object.spec.replicas : 1) <= 5
object.spec.?replicas.hasValue()¦object.spec != null && has(object.spec.replicas)
has(oldObject.spec)¦oldObject != null && has(oldObject.spec)
optional.of(1).value()¦[1][0]
.object.spec == 1u¦object.spec == 1
object.x in []¦false
string(true)¦true ? 'true' : 'false'
[1, ?object.?a, 2]¦[1] + ((object != null && has(object.a) ? [object.a] : []) + [2])
object.l.all(x, x != '')¦object.l.all(x, x != '')
object.l.all(object, object != '' && object != .object)¦object.l.all(celbpf_object, celbpf_object != '' && celbpf_object != object)
object.l.exists(request, true) && request.a¦object.l.exists(celbpf_request, true) && request.a
object.l.all(variables, variables.v == .variables.v)¦object.l.all(celbpf_variables, celbpf_variables.v == variables.v)
object.l.all(oldObject, object.m.all(oldObject, oldObject == 1))¦object.l.all(celbpf_oldObject, object.m.all(celbpf_oldObject, celbpf_oldObject == 1))
object.l.map(params, params > 1, params)¦object.l.map(celbpf_params, celbpf_params > 1, celbpf_params)
{'a': 1}.all(object, request, request == 1)¦[{'a': 1}].map(celbpf_a, celbpf_a.map(celbpf_i, celbpf_a[celbpf_i]))[0].all(celbpf_request, celbpf_request == 1)
{'a': 1}.all(params, v, params != 'b')¦{'a': 1}.all(celbpf_params, celbpf_params != 'b')
variables.m.exists(object, params, object == params)¦variables.m.map(celbpf_i, [celbpf_i, variables.m[celbpf_i]]).exists(celbpf_p, celbpf_p[0] == celbpf_p[1])
optional.of(1).optMap(params, params).value()¦[1].map(celbpf_params, celbpf_params)[0]
variables.v + params.max¦variables.v + params.max
variables.o.orValue(0)¦[variables.o].map(celbpf_a, celbpf_a == [] ? 0 : celbpf_a[0])[0]
object.l.map(x, x.?n.orValue(x))¦object.l.map(x, x != null && has(x.n) ? x.n : x)
object.l.exists(i, v, v == '')¦(object.l.map(celbpf_i, celbpf_i) == object.l ? object.l : object.l.map(celbpf_i, object.l[celbpf_i])).exists(v, v == '')
{'a': 1}.all(k, v, k != 'b')¦{'a': 1}.all(k, k != 'b')
{'a': 1}.existsOne(k, v, k == v)¦[{'a': 1}].map(celbpf_a, celbpf_a.map(celbpf_i, [celbpf_i, celbpf_a[celbpf_i]]))[0].exists_one(celbpf_p, celbpf_p[0] == celbpf_p[1])
{'a': 1}.transformList(k, v, v > 0, v)¦[{'a': 1}].map(celbpf_a, celbpf_a.map(celbpf_i, celbpf_a[celbpf_i]))[0].map(v, v > 0, v)
variables.m.exists(k, v, k == v)¦variables.m.map(celbpf_i, [celbpf_i, variables.m[celbpf_i]]).exists(celbpf_p, celbpf_p[0] == celbpf_p[1])
variables.m.transformList(k, v, k != 'a', v)¦variables.m.map(celbpf_i, [celbpf_i, variables.m[celbpf_i]]).map(celbpf_p, celbpf_p[0] != 'a', celbpf_p[1])
variables.m.all(k, v, variables.m.exists(l, w, l == k && w == v))¦variables.m.map(celbpf_i, [celbpf_i, variables.m[celbpf_i]]).all(celbpf_p, variables.m.map(celbpf_i, [celbpf_i, variables.m[celbpf_i]]).exists(celbpf_ppp, celbpf_ppp[0] == celbpf_p[0] && celbpf_ppp[1] == celbpf_p[1]))
{?'a': object.?a, 'b': 1}¦object != null && has(object.a) ? {'a': object.a, 'b': 1} : {'b': 1}
object.l.first().orValue(object.d)¦[[object.l + []].map(celbpf_a, celbpf_a == [] ? [] : [celbpf_a[0]])[0]].map(celbpf_a, celbpf_a == [] ? object.d : celbpf_a[0])[0]
object.l.last().value()¦[object.l + []].map(celbpf_a, celbpf_a == [] ? [] : [celbpf_a[size(celbpf_a) - 1]])[0][0]
object.l.max()¦[object.l + []].map(celbpf_a, celbpf_a.filter(celbpf_i, celbpf_a.all(celbpf_b, celbpf_i >= celbpf_b))[0])[0]
sets.contains(object.a, object.b)¦[object.a + []].map(celbpf_a, [object.b + []].map(celbpf_b, celbpf_b.all(celbpf_i, celbpf_i in celbpf_a))[0])[0]
sets.intersects(object.a, object.b)¦[object.a + []].map(celbpf_a, [object.b + []].map(celbpf_b, celbpf_a.exists(celbpf_i, celbpf_i in celbpf_b))[0])[0]
has(variables.m.f)¦has(variables.m.f)
variables.m[?'a-b'].hasValue()¦has(variables.m.a) ? 'a-b' in variables.m : 'a-b' in variables.m
variables.l[?0].hasValue()¦0 < size(variables.l + [])
object.m[?object.k].hasValue()¦object.m == null ? string(object.k) != string(object.k) : object.m.map(celbpf_i, celbpf_i) == object.m ? (object.k < size(object.m) ? 0 <= object.k : false) : object.k in object.m
object.spec.args[?0].orValue('')¦(object.spec.args == null ? false : 0 < size(object.spec.args + [])) ? object.spec.args[0] : ''
object.l[?-1].hasValue()¦object.l == null ? false : (-1 < size(object.l + []) ? 0 <= -1 : false)
object.l[?size(object.l) - 1].value()¦[size(object.l) - 1].map(celbpf_b, (object.l == null ? string(celbpf_b) != string(celbpf_b) : (celbpf_b < size(object.l + []) ? 0 <= celbpf_b : false)) ? [object.l[celbpf_b]] : [])[0][0]
variables.m[?object.k].orValue(1)¦object.k in variables.m ? variables.m[object.k] : 1
variables.l[?object.k].hasValue()¦object.k < size(variables.l) ? 0 <= object.k : false
variables.o[?'a' + object.k]¦(variables.o.map(celbpf_a, ['a' + object.k].map(celbpf_b, (celbpf_a == null ? string(celbpf_b) != string(celbpf_b) : (has(celbpf_a.a) ? celbpf_b in celbpf_a : celbpf_b in celbpf_a)) ? [celbpf_a[celbpf_b]] : [])[0]) + [[]])[0]
object.?m[object.k].hasValue()¦((object != null && has(object.m) ? [object.m] : []).map(celbpf_a, (celbpf_a == null ? string(object.k) != string(object.k) : celbpf_a.map(celbpf_i, celbpf_i) == celbpf_a ? (object.k < size(celbpf_a) ? 0 <= object.k : false) : object.k in celbpf_a) ? [celbpf_a[object.k]] : []) + [[]])[0] != []
{'a': 1, ?'b': variables.o}¦variables.o != [] ? {'a': 1, 'b': variables.o[0]} : {'a': 1}
variables.l.first()¦[variables.l + []].map(celbpf_a, celbpf_a == [] ? [] : [celbpf_a[0]])[0]
variables.l.last()¦[variables.l + []].map(celbpf_a, celbpf_a == [] ? [] : [celbpf_a[size(celbpf_a) - 1]])[0]
variables.l.min()¦[variables.l + []].map(celbpf_a, celbpf_a.filter(celbpf_i, celbpf_a.all(celbpf_b, celbpf_i <= celbpf_b))[0])[0]
sets.intersects(variables.l, [1])¦[variables.l + []].map(celbpf_a, [[1] + []].map(celbpf_b, celbpf_a.exists(celbpf_i, celbpf_i in celbpf_b))[0])[0]"#;

/// One row per line: a match condition, a broken bar and its translation.
const CONDITIONS: &str = "namespaceObject == null¦dyn(null) == null
object.l.all(x, .namespaceObject == x)¦object.l.all(x, dyn(null) == x)
object.l.all(namespaceObject, namespaceObject == .namespaceObject)¦object.l.all(celbpf_namespaceObject, celbpf_namespaceObject == dyn(null))
has(namespaceObject.f)¦[dyn(null)].map(celbpf_a, celbpf_a != null && has(celbpf_a.f))[0]
params.max > 1¦params.max > 1";

/// One row per line: a method that uses the table of indices, a broken bar and its translation.
#[rattlefmt::skip]
const METHODS: &str = r#"object.l.isSorted()¦[object.l + []].map(celbpf_a, params.t.n.filter(celbpf_i, celbpf_i < size(celbpf_a) - 1).all(celbpf_i, celbpf_a[celbpf_i] <= celbpf_a[celbpf_i + 1]))[0]
object.l.distinct()¦[object.l + []].map(celbpf_a, params.t.n.filter(celbpf_i, celbpf_i < size(celbpf_a)).map(celbpf_i, !params.t.n.exists(celbpf_b, celbpf_b < celbpf_i && celbpf_a[celbpf_b] == celbpf_a[celbpf_i]), celbpf_a[celbpf_i]))[0]
object.l.reverse()¦[object.l + []].map(celbpf_a, params.t.n.filter(celbpf_i, celbpf_i < size(celbpf_a)).map(celbpf_i, celbpf_a[size(celbpf_a) - 1 - celbpf_i]))[0]
object.l.slice(1, params.n)¦[object.l + []].map(celbpf_a, [1].map(celbpf_b, [params.v.n].map(celbpf_c, 0 <= celbpf_b && celbpf_b <= celbpf_c && celbpf_c <= size(celbpf_a) ? params.t.n.filter(celbpf_i, celbpf_i < size(celbpf_a)).map(celbpf_i, celbpf_b <= celbpf_i && celbpf_i < celbpf_c, celbpf_a[celbpf_i]) : [][0])[0])[0])[0]
variables.l.indexOf('a')¦[variables.l + []].map(celbpf_a, ['a'].map(celbpf_b, [params.t.n.filter(celbpf_i, celbpf_i < size(celbpf_a)).filter(celbpf_i, celbpf_a[celbpf_i] == celbpf_b)].map(celbpf_c, celbpf_c == [] ? -1 : celbpf_c[0])[0])[0])[0]
[1].lastIndexOf(1)¦[[1] + []].map(celbpf_a, [1].map(celbpf_b, [params.t.n.filter(celbpf_i, celbpf_i < size(celbpf_a)).filter(celbpf_i, celbpf_a[celbpf_i] == celbpf_b)].map(celbpf_c, celbpf_c == [] ? -1 : celbpf_c[size(celbpf_c) - 1])[0])[0])[0]"#;

/// One row per line: a wide expression, a broken bar and the error in words.
const REFUSALS: &str = "name¦name is not supported here
authorizer.path('/x')¦path is not supported here
variables.none¦none is not supported here
object.?a + 1¦an optional value cannot be used here
object.l.all(celbpf_a, true)¦celbpf_a cannot be an iteration name here
1u + 1¦this unsigned int is not supported here
object.m[?object.?k]¦an optional value cannot be used here
object.m.all(k, v, k != v)¦the first name of this macro needs tables
object.m.all(k, celbpf_x, true)¦celbpf_x cannot be an iteration name here
{?object.t: object.?a}¦this optional entry is not supported here
{?'a': object.?a, ?'b': object.?a, ?'c': object.?a, ?'d': object.?a}¦this optional entry is not supported here
object.l.first(1)¦first is not supported here
object.l.reverse(1)¦reverse is not supported here
object.l.indexOf(1)¦indexOf is not supported here
'a'.lastIndexOf('a')¦lastIndexOf is not supported here
object.?a.distinct()¦an optional value cannot be used here
sets.contains(object.l)¦contains is not supported here";

/// The indices of a list, or the keys of a map, each with its item or value.
const NUMBERED: &str =
    "(object.m.map(celbpf_i, celbpf_i) == object.m ? params.t.n.filter(celbpf_i, celbpf_i < size(object.m)).map(celbpf_i, [celbpf_i, object.m[celbpf_i]]) : object.m.map(celbpf_i, [celbpf_i, object.m[celbpf_i]])).all(celbpf_p, celbpf_p[1] != celbpf_p[0])";

/// The variables `v`, of any kind, `o`, an optional value, `m`, a map, and `l`, a list.
fn scope(alloc: Global) -> Result<Scope, AllocError> {
    let mut scope = Scope::new(alloc);
    scope.add("v", Kind::Value(ValueKind::Dyn))?;
    scope.add("o", Kind::Optional(ValueKind::Dyn))?;
    scope.add("m", Kind::Value(ValueKind::Map))?;
    scope.add("l", Kind::Value(ValueKind::List))?;
    Ok(scope)
}

/// Whether an expression is that of the text.
fn is_written(alloc: Global, found: &Expr, wanted: &str) -> Result<bool, Fail> {
    let expected = cel_reader::read(alloc, wanted)?;
    let tree = format!(in alloc; "{found:?}")?;
    Ok(tree.as_str() == format!(in alloc; "{expected:?}")?.as_str())
}

/// Whether the text is translated to this expression.
fn has_translation(alloc: Global, text: &str, wrapped: bool, wanted: &str) -> Result<bool, Fail> {
    let found = translate(alloc, &read(alloc, text)?, &scope(alloc)?, wrapped)?;
    is_written(alloc, &found.expression, wanted)
}

#[test]
fn translates_expressions(rt: HostRuntime) -> Result<(), Fail> {
    for line in TRANSLATIONS.lines() {
        let (text, tree) = cells(line);
        assert!(rt;
            has_translation(rt.alloc(), text, false, tree)?,
            "row {text}"
        );
    }
    Ok(())
}

#[test]
fn translates_conditions(rt: HostRuntime) -> Result<(), Fail> {
    let alloc = rt.alloc();
    for line in CONDITIONS.lines() {
        let (text, tree) = cells(line);
        let found = translate_condition(alloc, &read(alloc, text)?, false)?;
        assert!(rt; is_written(alloc, &found.expression, tree)?, "row {text}");
    }
    Ok(())
}

#[test]
fn translates_params_beside_tables(rt: HostRuntime) -> Result<(), Fail> {
    assert!(rt; has_translation(rt.alloc(), "params.max", true, "params.v.max")?);
    assert!(rt; has_translation(rt.alloc(), "object.m.all(k, v, v != k)", true, NUMBERED)?);
    Ok(())
}

#[test]
fn translates_methods_by_places(rt: HostRuntime) -> Result<(), Fail> {
    for line in METHODS.lines() {
        let (text, tree) = cells(line);
        assert!(rt;
            has_translation(rt.alloc(), text, true, tree)?,
            "row {text}"
        );
    }
    Ok(())
}

#[test]
fn tells_kinds(rt: HostRuntime) -> Result<(), Fail> {
    let alloc = rt.alloc();
    let names = scope(alloc)?;
    let value = translate(alloc, &read(alloc, "1 < 2")?, &names, false)?;
    assert!(rt; matches!(value.kind, Kind::Value(ValueKind::Bool)));
    let optional = translate(alloc, &read(alloc, "object.?a")?, &names, false)?;
    assert!(rt; matches!(optional.kind, Kind::Optional(ValueKind::Dyn)));
    Ok(())
}

/// Whether the text is refused in these words.
fn is_refused(alloc: Global, text: &str, wanted: &str) -> Result<bool, Fail> {
    match translate(alloc, &read(alloc, text)?, &scope(alloc)?, false) {
        Ok(_) => Ok(false),
        Err(TranslationError::Memory) => Err(AllocError.into()),
        Err(error) => Ok(format!(in alloc; "{error}")?.as_str() == wanted),
    }
}

#[test]
fn refuses_expressions(rt: HostRuntime) -> Result<(), Fail> {
    for line in REFUSALS.lines() {
        let (text, words) = cells(line);
        assert!(rt; is_refused(rt.alloc(), text, words)?, "row {text}");
    }
    Ok(())
}
