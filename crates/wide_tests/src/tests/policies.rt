//! Trees of expressions that policies write.

use super::cells;
use super::trees::has_tree;
use std::test::Fail;

/// One row per line: a text, a broken bar and its tree.
const TREES: &str =
    r##"object.spec.?replicas.orValue(1)¦Method(Select(Select(Name("object"), Plain, "spec"), Optional, "replicas"), "orValue", [Literal(Int(1))])
object.metadata.labels.existsOne(k, v, v == 'x')¦PairFold(ExistsOne, Select(Select(Name("object"), Plain, "metadata"), Plain, "labels"), "k", "v", Binary(Equal, Name("v"), Literal(Text("x"))))
object.spec.?missing.orValue(1)¦Method(Select(Select(Name("object"), Plain, "spec"), Optional, "missing"), "orValue", [Literal(Int(1))])
object.spec.args.isSorted()¦Method(Select(Select(Name("object"), Plain, "spec"), Plain, "args"), "isSorted", [])
object.spec.?missing.deep.orValue('d')¦Method(Select(Select(Select(Name("object"), Plain, "spec"), Optional, "missing"), Plain, "deep"), "orValue", [Literal(Text("d"))])
object.spec.args.join(',')¦Method(Select(Select(Name("object"), Plain, "spec"), Plain, "args"), "join", [Literal(Text(","))])
oldObject.?spec.hasValue()¦Method(Select(Name("oldObject"), Optional, "spec"), "hasValue", [])
'%s has %d'.format([object.metadata.name, object.spec.replicas])¦Method(Literal(Text("%s has %d")), "format", [List([(Plain, Select(Select(Name("object"), Plain, "metadata"), Plain, "name")), (Plain, Select(Select(Name("object"), Plain, "spec"), Plain, "replicas"))])])
object.missing.?x.hasValue()¦Method(Select(Select(Name("object"), Plain, "missing"), Optional, "x"), "hasValue", [])
type(object.spec.replicas) == int¦Binary(Equal, Call("type", [Select(Select(Name("object"), Plain, "spec"), Plain, "replicas")]), Name("int"))
object.spec.args.?x.hasValue()¦Method(Select(Select(Select(Name("object"), Plain, "spec"), Plain, "args"), Optional, "x"), "hasValue", [])
object.spec.image.matches('^reg[.]io/[a-z]+:[0-9]+')¦Method(Select(Select(Name("object"), Plain, "spec"), Plain, "image"), "matches", [Literal(Text("^reg[.]io/[a-z]+:[0-9]+"))])
object.spec.args[?-1].hasValue()¦Method(Index(Select(Select(Name("object"), Plain, "spec"), Plain, "args"), Optional, Literal(Int(-1))), "hasValue", [])
object.spec.note.matches('a')¦Method(Select(Select(Name("object"), Plain, "spec"), Plain, "note"), "matches", [Literal(Text("a"))])
object.metadata.labels[?'app'] == optional.of('shop')¦Binary(Equal, Index(Select(Select(Name("object"), Plain, "metadata"), Plain, "labels"), Optional, Literal(Text("app"))), Method(Name("optional"), "of", [Literal(Text("shop"))]))
params.res.exists(p, object.spec.image.matches(p))¦Fold(Exists, Select(Name("params"), Plain, "res"), "p", Method(Select(Select(Name("object"), Plain, "spec"), Plain, "image"), "matches", [Name("p")]))
object.metadata.labels[?object.spec.note].hasValue()¦Method(Index(Select(Select(Name("object"), Plain, "metadata"), Plain, "labels"), Optional, Select(Select(Name("object"), Plain, "spec"), Plain, "note")), "hasValue", [])
object.spec.image.split(':')[1]¦Index(Method(Select(Select(Name("object"), Plain, "spec"), Plain, "image"), "split", [Literal(Text(":"))]), Plain, Literal(Int(1)))
object.spec.?missing[object.nothing].hasValue()¦Method(Index(Select(Select(Name("object"), Plain, "spec"), Optional, "missing"), Plain, Select(Name("object"), Plain, "nothing")), "hasValue", [])
object.spec.image.substring(object.spec.image.lastIndexOf('/') + 1)¦Method(Select(Select(Name("object"), Plain, "spec"), Plain, "image"), "substring", [Binary(Add, Method(Select(Select(Name("object"), Plain, "spec"), Plain, "image"), "lastIndexOf", [Literal(Text("/"))]), Literal(Int(1)))])
object.spec.?a == object.spec.?b¦Binary(Equal, Select(Select(Name("object"), Plain, "spec"), Optional, "a"), Select(Select(Name("object"), Plain, "spec"), Optional, "b"))
'TacoCat'.lowerAscii() + 'Ö'.lowerAscii()¦Binary(Add, Method(Literal(Text("TacoCat")), "lowerAscii", []), Method(Literal(Text("Ö")), "lowerAscii", []))
object.spec.?note == optional.none()¦Binary(Equal, Select(Select(Name("object"), Plain, "spec"), Optional, "note"), Method(Name("optional"), "none", []))
'hello hello'.replace('he', 'we', 1)¦Method(Literal(Text("hello hello")), "replace", [Literal(Text("he")), Literal(Text("we")), Literal(Int(1))])
object.spec.?note.value()¦Method(Select(Select(Name("object"), Plain, "spec"), Optional, "note"), "value", [])
quantity(object.spec.cpu).isLessThan(quantity('0.5'))¦Method(Call("quantity", [Select(Select(Name("object"), Plain, "spec"), Plain, "cpu")]), "isLessThan", [Call("quantity", [Literal(Text("0.5"))])])
object.spec.?missing.value()¦Method(Select(Select(Name("object"), Plain, "spec"), Optional, "missing"), "value", [])
quantity('1000m').isInteger()¦Method(Call("quantity", [Literal(Text("1000m"))]), "isInteger", [])
object.spec.?replicas.optMap(r, r * 2).orValue(0)¦Method(OptionalFold(Map, Select(Select(Name("object"), Plain, "spec"), Optional, "replicas"), "r", Binary(Multiply, Name("r"), Literal(Int(2)))), "orValue", [Literal(Int(0))])
quantity('50k').add(quantity('20k')).compareTo(quantity('70k'))¦Method(Method(Call("quantity", [Literal(Text("50k"))]), "add", [Call("quantity", [Literal(Text("20k"))])]), "compareTo", [Call("quantity", [Literal(Text("70k"))])])
object.metadata.?labels.optFlatMap(l, l.?app).orValue('')¦Method(OptionalFold(FlatMap, Select(Select(Name("object"), Plain, "metadata"), Optional, "labels"), "l", Select(Name("l"), Optional, "app")), "orValue", [Literal(Text(""))])
int('-7') + int(object.spec.replicas)¦Binary(Add, Call("int", [Literal(Text("-7"))]), Call("int", [Select(Select(Name("object"), Plain, "spec"), Plain, "replicas")]))
object.spec.?replicas.orValue(object.nothing)¦Method(Select(Select(Name("object"), Plain, "spec"), Optional, "replicas"), "orValue", [Select(Name("object"), Plain, "nothing")])
bool('True')¦Call("bool", [Literal(Text("True"))])
optional.ofNonZeroValue(object.spec.sel).hasValue()¦Method(Method(Name("optional"), "ofNonZeroValue", [Select(Select(Name("object"), Plain, "spec"), Plain, "sel")]), "hasValue", [])
duration('1.5h').getMinutes()¦Method(Call("duration", [Literal(Text("1.5h"))]), "getMinutes", [])
[?object.spec.?a, object.spec.replicas]¦List([(Optional, Select(Select(Name("object"), Plain, "spec"), Optional, "a")), (Plain, Select(Select(Name("object"), Plain, "spec"), Plain, "replicas"))])
timestamp('2026-03-01T00:00:00Z') - duration('24h') == timestamp('2026-02-28T00:00:00Z')¦Binary(Equal, Binary(Subtract, Call("timestamp", [Literal(Text("2026-03-01T00:00:00Z"))]), Call("duration", [Literal(Text("24h"))])), Call("timestamp", [Literal(Text("2026-02-28T00:00:00Z"))]))
{?'a': object.spec.?a, ?'r': object.spec.?replicas}¦Map([(Optional, Literal(Text("a")), Select(Select(Name("object"), Plain, "spec"), Optional, "a")), (Optional, Literal(Text("r")), Select(Select(Name("object"), Plain, "spec"), Optional, "replicas"))])
semver('1.0.0-alpha.2').isLessThan(semver('1.0.0-alpha.10'))¦Method(Call("semver", [Literal(Text("1.0.0-alpha.2"))]), "isLessThan", [Call("semver", [Literal(Text("1.0.0-alpha.10"))])])
has(oldObject.spec)¦Has(Name("oldObject"), "spec")
cidr('10.0.0.0/8').containsIP(ip('10.1.2.3'))¦Method(Call("cidr", [Literal(Text("10.0.0.0/8"))]), "containsIP", [Call("ip", [Literal(Text("10.1.2.3"))])])
has(object.metadata.labels.`team/a`)¦Has(Select(Select(Name("object"), Plain, "metadata"), Plain, "labels"), "team/a")
isIP('::ffff:1.2.3.4')¦Call("isIP", [Literal(Text("::ffff:1.2.3.4"))])
.object.spec.replicas == 3¦Binary(Equal, Select(Select(Root("object"), Plain, "spec"), Plain, "replicas"), Literal(Int(3)))
format.dns1123Label().validate(object.metadata.name).hasValue()¦Method(Method(Method(Name("format"), "dns1123Label", []), "validate", [Select(Select(Name("object"), Plain, "metadata"), Plain, "name")]), "hasValue", [])
'''it's'''¦Literal(Text("it's"))
'abc 123 def 456'.findAll('[0-9]+')¦Method(Literal(Text("abc 123 def 456")), "findAll", [Literal(Text("[0-9]+"))])
r"""\d"""¦Literal(Text("\\d"))
object.missing[?-1].hasValue()¦Method(Index(Select(Name("object"), Plain, "missing"), Optional, Literal(Int(-1))), "hasValue", [])
1 < 2u¦Binary(Less, Literal(Int(1)), Uint(2))
object.spec.note[?object.nothing].hasValue()¦Method(Index(Select(Select(Name("object"), Plain, "spec"), Plain, "note"), Optional, Select(Name("object"), Plain, "nothing")), "hasValue", [])
--object.spec.replicas¦Select(Select(Name("object"), Plain, "spec"), Plain, "replicas")
object.spec.ports.map(p, p.?name.orValue('-'))¦Fold(Map, Select(Select(Name("object"), Plain, "spec"), Plain, "ports"), "p", Method(Select(Name("p"), Optional, "name"), "orValue", [Literal(Text("-"))]))
string(object.spec.paused)¦Call("string", [Select(Select(Name("object"), Plain, "spec"), Plain, "paused")])
object.spec.ports.exists(p, p.?name == object.metadata.?name)¦Fold(Exists, Select(Select(Name("object"), Plain, "spec"), Plain, "ports"), "p", Binary(Equal, Select(Name("p"), Optional, "name"), Select(Select(Name("object"), Plain, "metadata"), Optional, "name")))
string(object.spec.note)¦Call("string", [Select(Select(Name("object"), Plain, "spec"), Plain, "note")])
object.spec.args.exists(request, request == '-v')¦Fold(Exists, Select(Select(Name("object"), Plain, "spec"), Plain, "args"), "request", Binary(Equal, Name("request"), Literal(Text("-v"))))
object.nothing in []¦Binary(In, Select(Name("object"), Plain, "nothing"), List([]))
object.spec.sel.?a.?b[object.nothing].or(optional.of('x')).value()¦Method(Method(Index(Select(Select(Select(Select(Name("object"), Plain, "spec"), Plain, "sel"), Optional, "a"), Optional, "b"), Plain, Select(Name("object"), Plain, "nothing")), "or", [Method(Name("optional"), "of", [Literal(Text("x"))])]), "value", [])
object.metadata.labels.all(k, v, k != v)¦PairFold(All, Select(Select(Name("object"), Plain, "metadata"), Plain, "labels"), "k", "v", Binary(NotEqual, Name("k"), Name("v")))
has(params.none) || params.max == 5¦Binary(Or, Has(Name("params"), "none"), Binary(Equal, Select(Name("params"), Plain, "max"), Literal(Int(5))))
object.spec.args.exists(i, a, i == 1 && a.startsWith('--'))¦PairFold(Exists, Select(Select(Name("object"), Plain, "spec"), Plain, "args"), "i", "a", Binary(And, Binary(Equal, Name("i"), Literal(Int(1))), Method(Name("a"), "startsWith", [Literal(Text("--"))])))
params.res.exists(p, ('xx' + object.spec.image).matches(p))¦Fold(Exists, Select(Name("params"), Plain, "res"), "p", Method(Binary(Add, Literal(Text("xx")), Select(Select(Name("object"), Plain, "spec"), Plain, "image")), "matches", [Name("p")]))
object.metadata.labels.transformList(k, v, k + '=' + v)¦PairFold(TransformList, Select(Select(Name("object"), Plain, "metadata"), Plain, "labels"), "k", "v", Binary(Add, Binary(Add, Name("k"), Literal(Text("="))), Name("v")))
[2, 1, 2].distinct() == [2, 1]¦Binary(Equal, Method(List([(Plain, Literal(Int(2))), (Plain, Literal(Int(1))), (Plain, Literal(Int(2)))]), "distinct", []), List([(Plain, Literal(Int(2))), (Plain, Literal(Int(1)))]))"##;

#[test]
fn reads_expressions_of_policies(rt: HostRuntime) -> Result<(), Fail> {
    for line in TREES.lines() {
        let (text, tree) = cells(line);
        assert!(rt; has_tree(rt.alloc(), text, tree)?, "row {text}");
    }
    Ok(())
}
