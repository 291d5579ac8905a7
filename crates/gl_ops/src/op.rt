/// An opcode with its operands. Texts, names and integers are places in a program's pools.
#[derive(Clone, Copy, Debug, PartialEq, Eq)]
pub enum Op {
    /// A text statement: `b` is the text.
    Text { b: u32 },
    /// A comment: `b` is its text.
    Comment { b: u32 },
    /// The opening of an element: `b` is the tag's text.
    Open { b: u32 },
    /// An attribute with a fixed text: `a` is its name, `b` the text.
    Attr { a: u32, b: u32 },
    /// An attribute with the value of a reference: `a` is its name.
    AttrRef { a: u32 },
    /// The place of the attributes that are passed in.
    Spread,
    /// A modifier: `a` is the modifier, `b` how many references it takes.
    Mod { a: u32, b: u32 },
    /// The end of an element's parts.
    Flush,
    /// The end of an element.
    Close,
    /// The text of a reference's value.
    Put,
    /// A body that is rendered where a value is true: `b` is the address of the else body.
    If { b: u32 },
    /// A body that is rendered where a value is false: `b` is the address of the else body.
    Unless { b: u32 },
    /// The end of the first body of an if or an each: `b` is the address of the end.
    Else { b: u32 },
    /// The end of an if.
    EndIf,
    /// A body for each item: `a` is the name of the key, `b` the address of the else body.
    Each { a: u32, b: u32 },
    /// The start of an item: `a` and `b` are the symbols of the item and of its index, each plus one, 0 for none.
    Item { a: u32, b: u32 },
    /// The end of an item.
    EndItem,
    /// The end of an each.
    EndEach,
    /// The start of a let: `a` is how many references it takes.
    Let { a: u32 },
    /// A parameter of a let: `a` is its symbol.
    Bind { a: u32 },
    /// The end of a let.
    EndLet,
    /// The start of a component: `a` is its class.
    Comp { a: u32 },
    /// An argument of a component: `a` is its name.
    Arg { a: u32 },
    /// A block that a component is passed: `a` is its name, `b` the address after its end.
    Block { a: u32, b: u32 },
    /// A parameter of a block: `a` is its symbol.
    Param { a: u32 },
    /// The end of a block.
    EndBlock,
    /// A component that is passed no block.
    Bare,
    /// The rendering of a component.
    Invoke,
    /// The place of a block that is passed in: `a` is how many references it takes, `b` the block's name.
    Yield { a: u32, b: u32 },
    /// The reference of undefined.
    Undef,
    /// The reference of null.
    Null,
    /// The reference of true.
    True,
    /// The reference of false.
    False,
    /// The reference of an integer: `b` is the integer.
    Int { b: u32 },
    /// The reference of a text: `b` is the text.
    Str { b: u32 },
    /// The reference of a parameter in scope: `a` is its symbol.
    Local { a: u32 },
    /// The reference of an argument: `a` is its name.
    ArgRef { a: u32 },
    /// The reference of a field: `a` is the field.
    Field { a: u32 },
    /// The reference of a getter: `a` is the getter.
    Getter { a: u32 },
    /// The reference of an action: `a` is the action.
    Action { a: u32 },
    /// The reference of a property: `b` is its name's text.
    Prop { b: u32 },
    /// The reference of a helper's value: `a` is the helper, `b` how many references it takes.
    Call { a: u32, b: u32 },
    /// The name of the argument before: `b` is the name's text.
    Named { b: u32 },
    /// The reference of values that are joined: `a` is how many.
    Cat { a: u32 },
    /// The end of a program.
    Done,
}
